//! The rule that a draft is completed to, or why there is none.
ghost use Rattle.std.specs.Prelude.{◌≡◌, ◌⊎◌, IfOk, IfErr};
ghost use Rattle.rule_completion.specs.Rules.{IsWrittenDraft, IsCompleted};
ghost use Rattle.context_transform.specs.declared.fault.CellsUnclear.TheVariants.{Memory as WantOfMemory};
ghost use Rattle.context_transform.specs.Completing.{cell_name, told_completion, IsUnclear};

use crate::fault::CellsUnclear;
use cell_trees::CellTree;
use k_terms::{Memory, Text};
use rule_completion::{NoCompletion, complete_rule};
use rule_terms::{CellShape, Draft, Rule};
use sorted_grammar::What;
use std::alloc::Global;

/// The name of a declared cell.
fn name_of(alloc: Global, shapes: &[CellShape], cell: u32) -> Result<Text, Memory>
    ensures { IfOk result (λ name. name ≡ cell_name shapes.now cell) }
{
    match shapes.get(cell as usize) {
        Some(shape) => Ok(Text::from_vec(Vec::from_slice(alloc, shape.name.as_slice())?)),
        None => Ok(Text::new(alloc)),
    }
}

/// What is told of the draft of the rule with a number that is completed to none.
fn told(alloc: Global, shapes: &[CellShape], number: u32, why: NoCompletion) -> CellsUnclear
    ensures { (result ≡ WantOfMemory) ⊎ (result ≡ told_completion shapes.now number why) }
{
    match why {
        NoCompletion::Misplaced { cell } => match name_of(alloc, shapes, cell) {
            Ok(cell) => CellsUnclear::CellMisplaced { rule: number, cell },
            Err(_) => CellsUnclear::Memory,
        },
        NoCompletion::Unclear => CellsUnclear::Unclear { rule: number },
        NoCompletion::PatternCells { n } => CellsUnclear::TooMany {
            what: What::PatternCells,
            n: n as u64,
        },
        NoCompletion::NewCells { n } => CellsUnclear::TooMany {
            what: What::NewCells,
            n: n as u64,
        },
        NoCompletion::Memory => CellsUnclear::Memory,
    }
}

/// The rule that the draft of the rule with a number is completed to: its cells in their least completion, and in its new cells
/// the declared ones that it doesn't write.
pub fn complete(
    alloc: Global,
    tree: &CellTree,
    draft: &Draft,
    number: u32,
) -> Result<Rule, CellsUnclear>
    requires { IsWrittenDraft tree.now draft.now }
    ensures ok { IfOk result (IsCompleted tree.now draft.now) }
    ensures fault { IfErr result (λ fault. (fault ≡ WantOfMemory) ⊎ IsUnclear tree.now draft.now number fault) }
{
    match complete_rule(alloc, tree, draft) {
        Ok(rule) => Ok(rule),
        Err(why) => Err(told(alloc, tree.shapes(), number, why)),
    }
}
