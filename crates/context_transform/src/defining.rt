//! The language that the parts of a definition make.
ghost use Rattle.std.specs.Prelude.{◌≡◌, map, IfOk};
ghost use Rattle.std.specs.Arc.{arc_value};
ghost use Rattle.rule_terms.specs.Sound.{IsSound};
ghost use Rattle.context_transform.specs.Assembling.{language_of};

use cell_trees::CellTree;
use grammar_terms::Grammar;
use k_terms::{Many, Memory, Sorts, Text, copy_text};
use rule_terms::{CellShape, Defs, Rule};
use std::alloc::Global;
use std::sync::Arc;

fn shared_rules(alloc: Global, rules: Vec<Rule>) -> Result<Many<Arc<Rule>>, Memory>
    ensures { IfOk result (λ shared. map arc_value shared ≡ rules.items) }
{
    let mut shared = Vec::with_capacity(alloc, rules.len())?;
    for rule in rules {
        shared.push(Arc::new(alloc, rule)?)?;
    }
    Ok(Many::from_vec(shared))
}

fn copied_shapes(alloc: Global, shapes: &[CellShape]) -> Result<Many<CellShape>, Memory>
    ensures { IfOk result (λ copies. copies ≡ shapes.now) }
{
    let mut copies = Vec::with_capacity(alloc, shapes.len())?;
    for shape in shapes {
        copies.push(CellShape {
            name: copy_text(alloc, &shape.name)?,
            parent: shape.parent,
            many: shape.many,
            kind: shape.kind,
        })?;
    }
    Ok(Many::from_vec(copies))
}

fn copied_texts(alloc: Global, texts: &[Text]) -> Result<Many<Text>, Memory>
    ensures { IfOk result (λ copies. copies ≡ texts.now) }
{
    let mut copies = Vec::with_capacity(alloc, texts.len())?;
    for text in texts {
        copies.push(copy_text(alloc, text)?)?;
    }
    Ok(Many::from_vec(copies))
}

/// The language of a grammar, of declared cells and of rules, which are sound.
pub(crate) fn defs_of(
    alloc: Global,
    grammar: &Grammar,
    tree: &CellTree,
    rules: Vec<Rule>,
) -> Result<Arc<Defs>, Memory>
    requires { IsSound (language_of grammar.now tree.now rules.items) }
    ensures { IfOk result (λ defs. arc_value defs ≡ language_of grammar.now tree.now rules.items) }
{
    let sorts = grammar.sorts();
    let sorts = Sorts::new(alloc, sorts.steps(), sorts.productions())?;
    let cells = copied_shapes(alloc, tree.shapes())?;
    let labels = copied_texts(alloc, grammar.labels())?;
    let rules = shared_rules(alloc, rules)?;
    Ok(Arc::new(alloc, Defs::new(sorts, cells, rules, labels))?)
}
