//! The variables of a rule, and the first one that the left side does not have.
ghost use Rattle.std.specs.Prelude.{◌≡◌, ◌++◌, ◌==◌, ◌&&◌, map, min, IfOk, MatchOption};
ghost use Rattle.std.specs.List.{find, list_any, flat_map};
ghost use Rattle.std.specs.Option.{option_map_or};
ghost use Rattle.rule_parts.specs.declared.terms.Occurrence.{Occurrence as Found};
ghost use Rattle.rule_drafts.specs.Drafts.{is_known as known_in, with_variable, variables as variables_of, is_bound as bound_in, is_unbound, name_by, name_of as name_in, stray_fault, is_among as among, HasNone, IsFirstOf};

use crate::fault::Unbound;
use k_terms::{Many, Memory};
use rule_parts::Occurrence;
use rule_tokens::{RuleKind, RuleToken};
use std::alloc::Global;

/// Whether a variable is among these.
fn is_known(vars: &[Occurrence], home: usize) -> bool
    ensures { result ≡ known_in vars.now home }
{
    for var in vars {
        if var.home == home {
            return true;
        }
    }
    false
}

/// Adds a variable that is not among these.
fn add_variable(found: &Occurrence, vars: &mut Vec<Occurrence>) -> Result<(), Memory>
    ensures { IfOk result (λ _. vars.new.items ≡ with_variable vars.old.items found.now) }
{
    if !is_known(vars, found.home) {
        vars.push(*found)?;
    }
    Ok(())
}

/// The variables, each by its first occurrence.
pub(crate) fn variables(alloc: Global, found: &[Occurrence]) -> Result<Vec<Occurrence>, Memory>
    ensures { IfOk result (λ vars. vars.items ≡ variables_of found.now) }
{
    let mut vars = Vec::new(alloc);
    for occurrence in found {
        add_variable(occurrence, &mut vars)?;
    }
    Ok(vars)
}

/// The sorts of variables.
pub(crate) fn sorts_of(alloc: Global, vars: &[Occurrence]) -> Result<Many<u32>, Memory>
    ensures { IfOk result (λ sorts. sorts ≡ map (λ (v : Found). v.sort) vars.now) }
{
    let mut sorts = Vec::new(alloc);
    for var in vars {
        sorts.push(var.sort)?;
    }
    Ok(Many::from_vec(sorts))
}

/// Whether a variable stands on the left side.
fn is_bound(found: &[Occurrence], home: usize) -> bool
    ensures { result ≡ bound_in found.now home }
{
    for occurrence in found {
        if occurrence.is_left && occurrence.home == home {
            return true;
        }
    }
    false
}

/// The first variable that does not stand on the left side.
pub(crate) fn first_unbound(found: &[Occurrence]) -> Option<Occurrence>
    ensures { result ≡ find (is_unbound found.now) found.now }
{
    for occurrence in found {
        if !is_bound(found, occurrence.home) {
            return Some(*occurrence);
        }
    }
    None
}

/// How the variable that a token is is told.
fn name_of_kind(kind: &RuleKind) -> Unbound
    ensures { result ≡ name_by kind.now }
{
    match kind {
        RuleKind::Variable {
            name: Some(name),
            ..
        } => Unbound::Named(*name),
        RuleKind::Variable { name: None, .. } => Unbound::Wild,
        _ => Unbound::Dots,
    }
}

/// How a variable is told.
pub(crate) fn name_of(tokens: &[RuleToken], occurrence: Occurrence) -> Unbound
    ensures { result ≡ name_in tokens.now occurrence }
{
    match tokens.get(occurrence.home) {
        Some(token) => name_of_kind(&token.kind),
        None => Unbound::Dots,
    }
}

/// Adds the variables of sort K that stand where none may.
pub(crate) fn add_strays(found: &[Occurrence], faults: &mut Vec<usize>) -> Result<(), Memory>
    ensures { IfOk result (λ _. faults.new.items ≡ faults.old.items ++ flat_map stray_fault found.now) }
{
    for occurrence in found {
        if occurrence.is_stray {
            faults.push(occurrence.at)?;
        }
    }
    Ok(())
}

/// The lesser of a token and another, where there is another.
fn lesser(token: usize, other: Option<usize>) -> usize
    ensures { result ≡ option_map_or (min token) other token }
{
    match other {
        Some(other) => token.min(other),
        None => token,
    }
}

/// The first of these tokens.
pub(crate) fn first_fault(faults: &[usize]) -> Option<usize>
    ensures { MatchOption result (HasNone faults.now) (IsFirstOf faults.now) }
{
    let mut first = None;
    for token in faults {
        first = Some(lesser(*token, first));
    }
    first
}
