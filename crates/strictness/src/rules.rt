//! The rules of all strict places of a grammar.
ghost use Rattle.std.specs.Prelude.{◌≡◌, ◌⊎◌, ◌++◌, ◌+◌, IfOk, IfErr, MatchResult};
ghost use Rattle.strictness.specs.declared.fault.StrictFault.TheVariants.{Memory as WantOfMemory};
ghost use Rattle.strictness.specs.declared.fault.StrictFault.{StrictFault as Fault};
ghost use Rattle.strictness.specs.Places.{declared_in, is_among as among, HaveNoBadPlace};
ghost use Rattle.strictness.specs.Drafts.{drafts_at, drafts_of, drafts_from, strict_drafts};
ghost use Rattle.strictness.specs.Heating.{IsFault, IsRefusal};

use crate::drafts::{cooling, heating};
use crate::fault::StrictFault;
use crate::places::{argument_sorts, named_places, refuse_bad};
use grammar_terms::{Grammar, Production};
use k_terms::{Many, Memory};
use rule_terms::Draft;
use std::alloc::Global;

/// The declared productions. The order of sorts has the sort of each of these, so it tells how many there are.
fn declared(grammar: &Grammar) -> &[Production]
    ensures { result.now ≡ declared_in grammar.now }
{
    let count = grammar.sorts().productions().len();
    let prods = grammar.prods();
    if count < prods.len() {
        prods.split_at(count).0
    } else {
        prods
    }
}

fn is_named(named: &[u64], place: u32) -> bool
    ensures { result ≡ among named.now place }
{
    named.contains(&u64::from(place))
}

/// Adds the two rules of a place.
fn add_pair(
    alloc: Global,
    cell: u32,
    prod: u32,
    production: &Production,
    place: u32,
    drafts: &mut Vec<Draft>,
) -> Result<(), Memory>
    ensures { IfOk result (λ _. drafts.new.items ≡ drafts.old.items ++ drafts_at cell prod production.now place) }
{
    let sorts = argument_sorts(alloc, production.items.as_slice())?;
    drafts.push(heating(alloc, cell, prod, &production.attrs, &sorts, place)?)?;
    drafts.push(cooling(alloc, cell, prod, &sorts, place)?)?;
    Ok(())
}

/// Adds the rules of a production.
fn add_drafts(
    alloc: Global,
    cell: u32,
    prod: u32,
    production: &Production,
    drafts: &mut Vec<Draft>,
) -> Result<(), Memory>
    ensures { IfOk result (λ _. drafts.new.items ≡ drafts.old.items ++ drafts_of cell prod production.now) }
{
    let sorts = argument_sorts(alloc, production.items.as_slice())?;
    let named = named_places(alloc, &production.attrs, sorts.len())?;
    let Ok(count) = u32::try_from(sorts.len()) else {
        return Err(Memory);
    };
    for index in 0..count {
        if is_named(&named, index + 1) {
            add_pair(alloc, cell, prod, production, index + 1, drafts)?;
        }
    }
    Ok(())
}

/// The number of the production at an index; more productions than a number counts are more than memory holds.
fn number_of(index: usize) -> Result<u32, Memory>
    ensures { IfOk result (λ prod. prod ≡ index + 1) }
{
    match u32::try_from(index) {
        Ok(before) => before.checked_add(1).ok_or(Memory),
        Err(_) => Err(Memory),
    }
}

/// The rules of productions.
fn drafts(alloc: Global, cell: u32, prods: &[Production]) -> Result<Many<Draft>, Memory>
    ensures { IfOk result (λ drafts. drafts ≡ drafts_from cell 1 prods.now) }
{
    let mut drafts = Vec::new(alloc);
    for (index, production) in prods.iter().enumerate() {
        add_drafts(alloc, cell, number_of(index)?, production, &mut drafts)?;
    }
    Ok(Many::from_vec(drafts))
}

/// The rules, or why there are none.
fn strict_rules(alloc: Global, grammar: &Grammar, k: u32) -> Result<Many<Draft>, StrictFault>
    ensures { MatchResult result
        (λ drafts. (drafts ≡ strict_drafts grammar.now k) × HaveNoBadPlace (declared_in grammar.now))
        (IsRefusal (declared_in grammar.now)) }
{
    let prods = declared(grammar);
    refuse_bad(alloc, prods)?;
    Ok(drafts(alloc, k, prods)?)
}

/// The rules of heating and cooling of a grammar's declared productions: for each strict place, productions and places
/// rising, the rule that pulls the argument out and the one that puts a result back. Both are over one cell alone, whose
/// declared cell is `k`.
pub fn heat_cool(alloc: Global, grammar: &Grammar, k: u32) -> Result<Many<Draft>, StrictFault>
    ensures ok { IfOk result (λ drafts.
        (drafts ≡ strict_drafts grammar.now k) × HaveNoBadPlace (declared_in grammar.now)) }
    ensures fault { IfErr result (λ fault. (fault ≡ WantOfMemory) ⊎ IsFault (declared_in grammar.now) fault) }
    ensures exact { HaveNoBadPlace (declared_in grammar.now)
        → MatchResult result (λ drafts. drafts ≡ strict_drafts grammar.now k) (λ fault. fault ≡ WantOfMemory) }
    ensures exact_fault { (fault : Fault) → IsFault (declared_in grammar.now) fault
        → MatchResult result (λ _. ⊥) (λ other. (other ≡ WantOfMemory) ⊎ (other ≡ fault)) }
{
    strict_rules(alloc, grammar, k)
}
