ghost use Rattle.std.specs.Prelude.{◌≡◌, IfOk, IfErr};
ghost use Rattle.cell_completion.specs.Completion.{IsLeastCompletion, NoneMisplaced};
ghost use Rattle.rule_completion.specs.Writing.{written};
ghost use Rattle.rule_completion.specs.Rules.{IsWrittenDraft, HasFewCells, IsOverLimit, IsCompleted, IsNotCompleted};

use crate::refusal::NoCompletion;
use crate::rule::rule_of;
use crate::writing::written_cells;
use cell_completion::{CompletionFault, Tree, complete_cells};
use cell_trees::CellTree;
use rule_terms::{Draft, Rule, left_cells, new_cells};
use std::alloc::Global;

/// A rule matches at most so many cells, and makes at most so many.
const CELLS: u32 = 16;

/// The least completion of the cells that a draft writes.
fn whole_of(alloc: Global, tree: &CellTree, draft: &Draft) -> Result<Tree, NoCompletion>
    requires { IsWrittenDraft tree.now draft.now }
    ensures ok { IfOk result (IsLeastCompletion tree.now.shapes (written draft.now)) }
    ensures placed { IfOk result (λ _. NoneMisplaced tree.now.shapes (written draft.now)) }
    ensures refused { IfErr result (IsNotCompleted tree.now draft.now) }
{
    tree.sound();
    let Ok(cells) = written_cells(alloc, draft) else {
        return Err(NoCompletion::Memory);
    };
    match complete_cells(alloc, tree.shapes(), &cells) {
        Ok(whole) => Ok(whole),
        Err(CompletionFault::Misplaced { cell }) => Err(NoCompletion::Misplaced { cell }),
        Err(CompletionFault::Unclear) => Err(NoCompletion::Unclear),
        Err(CompletionFault::Memory) => Err(NoCompletion::Memory),
    }
}

/// A rule that has no more cells than a rule may have.
fn limited(rule: Rule) -> Result<Rule, NoCompletion>
    ensures same { IfOk result (λ limited. limited ≡ rule) }
    ensures few { IfOk result HasFewCells }
    ensures over { IfErr result (IsOverLimit rule) }
{
    let n = left_cells(&rule);
    if n > CELLS {
        return Err(NoCompletion::PatternCells { n });
    }
    let n = new_cells(&rule);
    if n > CELLS {
        return Err(NoCompletion::NewCells { n });
    }
    Ok(rule)
}

/// The rule that a draft is completed to over declared cells: its least completion, with the declared cells that its new
/// cells don't write.
pub fn complete_rule(alloc: Global, tree: &CellTree, draft: &Draft) -> Result<Rule, NoCompletion>
    requires { IsWrittenDraft tree.now draft.now }
    ensures ok { IfOk result (IsCompleted tree.now draft.now) }
    ensures refused { IfErr result (IsNotCompleted tree.now draft.now) }
{
    tree.sound();
    let whole = whole_of(alloc, tree, draft)?;
    let Ok(rule) = rule_of(alloc, tree, draft, &whole) else {
        return Err(NoCompletion::Memory);
    };
    limited(rule)
}
