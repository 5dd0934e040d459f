ghost use Rattle.std.specs.Prelude.{◌≡◌, ◌+◌, ◌∷◌, [], ◌++◌, length, map, replicate, IfOk};
ghost use Rattle.std.specs.Arc.{arc_value};
ghost use Rattle.small_form.specs.Small.{IsSmall, language_of, rule_of, labels_of, front, first_sort, cell_k};
ghost use Rattle.k_terms.specs.Sorts.{sort_k};
ghost use Rattle.rule_terms.specs.Sound.{IsSound};

use crate::small::{Production, Small, SmallRule};
use k_terms::{Many, Memory, Sorts, Text, sort};
use rule_terms::{Body, CellPat, CellShape, Defs, Kind, Origin, Pattern, Rule};
use std::alloc::Global;
use std::sync::Arc;

/// The number of the one declared sort.
const FIRST_SORT: u32 = 10;

/// A term at the front of the cell `k`, with a rest.
fn front_of(alloc: Global, term: Pattern, rest: u32) -> Result<CellPat, Memory>
    ensures ok { IfOk result (λ cell. cell ≡ front rest term) }
{
    let mut parts = Vec::new(alloc);
    parts.push(term)?;
    Ok(CellPat {
        cell: 0,
        mark: 0,
        body: Body::Seq(Many::from_vec(parts), Some(rest)),
    })
}

/// The sorts of a rule's variables: the one declared sort for each, and K for the rest.
fn variable_sorts(alloc: Global, count: usize) -> Result<Vec<u32>, Memory>
    ensures ok { IfOk result (λ sorts. sorts.items ≡ replicate count first_sort ++ sort_k ∷ []) }
{
    let mut sorts = Vec::from_elem(alloc, FIRST_SORT, count)?;
    sorts.push(sort::K)?;
    Ok(sorts)
}

/// A rule as rewriting sees it. A rule has fewer variables than its numbers count; one of more is more than memory holds.
fn rule_from(alloc: Global, rule: SmallRule) -> Result<Rule, Memory>
    ensures ok { IfOk result (λ made. made ≡ rule_of rule) }
{
    let SmallRule {
        at,
        names,
        left,
        right,
    } = rule;
    let Ok(rest) = u32::try_from(names.len()) else {
        return Err(Memory);
    };
    Ok(Rule {
        origin: Origin::Written { at },
        vars: Many::from_vec(variable_sorts(alloc, names.len())?),
        left: front_of(alloc, left, rest)?,
        right: front_of(alloc, right, rest)?,
        when: Many::new(alloc),
    })
}

fn rules_from(alloc: Global, rules: Many<SmallRule>) -> Result<Many<Arc<Rule>>, Memory>
    ensures ok { IfOk result (λ made. map arc_value made ≡ map rule_of rules) }
{
    let mut made = Vec::new(alloc);
    for rule in rules.into_vec() {
        made.push(Arc::new(alloc, rule_from(alloc, rule)?)?)?;
    }
    Ok(Many::from_vec(made))
}

fn labels_from(alloc: Global, productions: Many<Production>) -> Result<Many<Text>, Memory>
    ensures ok { IfOk result (λ labels. labels ≡ labels_of productions) }
{
    let mut labels = Vec::new(alloc);
    for production in productions.into_vec() {
        let Production { label, arity: _ } = production;
        labels.push(label)?;
    }
    Ok(Many::from_vec(labels))
}

/// The one declared cell.
fn cells(alloc: Global) -> Result<Many<CellShape>, Memory>
    ensures ok { IfOk result (λ shapes. shapes ≡ cell_k ∷ []) }
{
    let mut shapes = Vec::new(alloc);
    shapes.push(CellShape {
        name: Many::from_vec(Vec::from_slice(alloc, b"k")?),
        parent: None,
        many: false,
        kind: Kind::Seq,
    })?;
    Ok(Many::from_vec(shapes))
}

/// The language that a definition of the small form defines.
pub fn language(alloc: Global, definition: Small) -> Result<Defs, Memory>
    requires { IsSmall definition }
    ensures ok { IfOk result (λ defs. defs ≡ language_of definition) }
{
    let Small {
        name: _,
        sort: _,
        productions,
        rules,
    } = definition;
    let sorts = Vec::from_elem(alloc, FIRST_SORT, productions.len())?;
    let sorts = Sorts::new(alloc, &[], sorts.as_slice())?;
    let rules = rules_from(alloc, rules)?;
    let labels = labels_from(alloc, productions)?;
    Ok(Defs::new(sorts, cells(alloc)?, rules, labels))
}
