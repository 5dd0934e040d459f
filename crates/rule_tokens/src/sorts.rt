//! The sorts of the named variables of a rule.
ghost use Rattle.std.specs.Prelude.{◌≡◌, ◌++◌, ◌∷◌, [], ℕ, List, map, IfOk, OnOk, MatchOption, MatchResult, Some, None};
ghost use Rattle.std.specs.List.{find};
ghost use Rattle.rule_tokens.specs.Variables.{Occurrence, occurrence_of, occurrences, variables, variables_by, is_unsorted, is_clash, sorts_apart, sorted_name, first_sort, AreSorts, IsVariableFault, IsClashOf};
ghost use Rattle.rule_tokens.specs.Tables.{Tells};

use crate::table::Table;
use crate::token::{RuleKind, RuleToken};
use k_terms::{Many, Memory, Symbol};
use std::alloc::Global;

/// Why the named variables of a rule have no sorts.
#[derive(Clone, Copy, Debug, PartialEq, Eq)]
pub enum VariableFault {
    /// Of this variable no sort is written. It is the first such variable of the text.
    Unsorted {
        name: Symbol,
    },
    /// Of this variable two different sorts are written, these first. It is the first such variable of the text.
    SortClash {
        name: Symbol,
        first: u32,
        second: u32,
    },
    /// Memory was wanting.
    Memory,
}

/// A named variable, the first sort that is written of it, and the first other one.
#[derive(Clone, Copy, Debug)]
pub(crate) struct Named {
    name: Symbol,
    first: Option<u32>,
    other: Option<u32>,
}

/// Notes a token, where it is a named variable.
fn note_token(table: &mut Table, token: &RuleToken) -> Result<(), Memory>
    ensures { OnOk result ((before : List Occurrence) → Tells before table.old → Tells (before ++ occurrence_of token.now) table.new) }
{
    let RuleKind::Variable { name, sort } = &token.kind else {
        return Ok(());
    };
    let Some(name) = *name else {
        return Ok(());
    };
    table.note(name.0, *sort)
}

/// What is written of the variables among tokens.
fn table_of(alloc: Global, tokens: &[RuleToken]) -> Result<Table, Memory>
    ensures { IfOk result (λ table. Tells (occurrences tokens.now) table) }
{
    let mut table = Table::new(alloc);
    for token in tokens {
        note_token(&mut table, token)?;
    }
    Ok(table)
}

/// The variables of a table.
fn listed(alloc: Global, table: &Table) -> Result<Vec<Named>, Memory>
    ensures { IfOk result (λ found. (before : List Occurrence) → Tells before table.now → found.items ≡ variables_by before) }
{
    let mut found = Vec::new(alloc);
    for place in 0..table.len() {
        let Some((name, written)) = table.entry(place) else {
            return Ok(found);
        };
        found.push(Named {
            name: Symbol(name),
            first: written.first,
            other: written.other,
        })?;
    }
    Ok(found)
}

/// The named variables among tokens.
fn variables_of(alloc: Global, tokens: &[RuleToken]) -> Result<Vec<Named>, Memory>
    ensures { IfOk result (λ found. found.items ≡ variables tokens.now) }
{
    let table = table_of(alloc, tokens)?;
    listed(alloc, &table)
}

/// The first variable of which no sort is written.
fn unsorted(variables: &[Named]) -> Option<Named>
    ensures { result ≡ find is_unsorted variables.now }
{
    for variable in variables {
        if variable.first.is_none() {
            return Some(*variable);
        }
    }
    None
}

/// Two different sorts of one variable, where they are written.
fn clash_of(variable: Named) -> Option<(u32, u32)>
    ensures { result ≡ sorts_apart variable.first variable.other }
{
    let Some(first) = variable.first else {
        return None;
    };
    let Some(other) = variable.other else {
        return None;
    };
    Some((first, other))
}

/// The first variable of which two different sorts are written, as a fault.
fn clash(variables: &[Named]) -> Option<VariableFault>
    ensures { MatchOption result (find is_clash variables.now ≡ None) (IsClashOf variables.now) }
{
    for variable in variables {
        if let Some((first, second)) = clash_of(*variable) {
            return Some(VariableFault::SortClash {
                name: variable.name,
                first,
                second,
            });
        }
    }
    None
}

/// The first sorts that are written of variables.
fn sorts_of(alloc: Global, variables: &[Named]) -> Result<Many<(Symbol, u32)>, Memory>
    ensures { IfOk result (λ found. find is_unsorted variables.now ≡ None → map sorted_name found ≡ map first_sort variables.now) }
{
    let mut found = Many::new(alloc);
    for variable in variables {
        let Some(first) = variable.first else {
            return Ok(found);
        };
        found.push((variable.name, first))?;
    }
    Ok(found)
}

/// The named variables among tokens in the order of their first occurrences, each with the one sort that is written
/// of it.
pub fn variable_sorts(
    alloc: Global,
    tokens: &[RuleToken],
) -> Result<Many<(Symbol, u32)>, VariableFault>
    ensures { MatchResult result (AreSorts (variables tokens.now)) (IsVariableFault (variables tokens.now)) }
{
    let Ok(variables) = variables_of(alloc, tokens) else {
        return Err(VariableFault::Memory);
    };
    if let Some(variable) = unsorted(&variables) {
        return Err(VariableFault::Unsorted {
            name: variable.name,
        });
    }
    if let Some(fault) = clash(&variables) {
        return Err(fault);
    }
    match sorts_of(alloc, &variables) {
        Ok(sorts) => Ok(sorts),
        Err(_) => Err(VariableFault::Memory),
    }
}
