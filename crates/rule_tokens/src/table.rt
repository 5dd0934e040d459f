//! A table of what is written of named variables.
ghost use Rattle.std.specs.Prelude.{◌≡◌, ◌<◌, ◌++◌, ◌∷◌, [], ℕ, List, Some, None, length, slice_get, unwrap_or, nat_eq, IsSome, IfSome, OnOk};
ghost use Rattle.std.specs.Map.{lookup};
ghost use Rattle.rule_tokens.specs.Variables.{Occurrence};
ghost use Rattle.rule_tokens.specs.Tables.{also, Tells};

use indexmap::IndexMap;
use k_terms::Memory;
use std::alloc::Global;
use std::marker::Model;

/// The first sort that is written of a variable, and the first other one.
#[derive(Clone, Copy, Debug)]
pub(crate) struct Written {
    pub(crate) first: Option<u32>,
    pub(crate) other: Option<u32>,
}

/// What is written of each variable, by the number of its symbol, in the order of their first occurrences.
#[derive(Drop)]
pub(crate) struct Table {
    entries: IndexMap<u32, Written>,
}

impl Model for Table {
    ghost use Rattle.std.specs.Prelude.{List, ℕ};
    ghost use Rattle.rule_tokens.specs.declared.table.Written.{Written};

    ghost Value = { List (ℕ × Written) };

    ghost view = { λ table. table.entries.entries };
}

/// What is written with one occurrence more.
fn with_sort(written: Written, sort: Option<u32>) -> Written
    ensures { result ≡ also written sort }
{
    let Some(sort) = sort else {
        return written;
    };
    let Some(first) = written.first else {
        return Written {
            first: Some(sort),
            other: None,
        };
    };
    if written.other.is_some() {
        return written;
    }
    if sort == first {
        return written;
    }
    Written {
        first: Some(first),
        other: Some(sort),
    }
}

impl Table {
    /// A table of no variable.
    pub(crate) fn new(alloc: Global) -> Table
        ensures { result ≡ [] }
    {
        Table {
            entries: IndexMap::new(alloc),
        }
    }

    /// What is written of a variable so far.
    fn find(&self, name: u32) -> Written
        ensures { result ≡ unwrap_or (lookup (nat_eq name) self.now) (record { first = None; other = None }) }
    {
        match self.entries.get(&name) {
            Some(written) => *written,
            None => Written {
                first: None,
                other: None,
            },
        }
    }

    /// Notes one occurrence more.
    pub(crate) fn note(&mut self, name: u32, sort: Option<u32>) -> Result<(), Memory>
        ensures { OnOk result ((before : List Occurrence) → Tells before self.old → Tells (before ++ (name, sort) ∷ []) self.new) }
    {
        let written = with_sort(self.find(name), sort);
        self.entries.insert(name, written)?;
        Ok(())
    }

    /// How many variables there are.
    pub(crate) fn len(&self) -> usize
        ensures { result ≡ length self.now }
    {
        self.entries.len()
    }

    /// The variable at a place, with what is written of it.
    pub(crate) fn entry(&self, place: usize) -> Option<(u32, Written)>
        ensures entry { result ≡ slice_get self.now place }
        ensures own { IfSome result (λ entry. lookup (nat_eq entry.0) self.now ≡ Some entry.1) }
    {
        match self.entries.get_index(place) {
            Some((name, written)) => Some((*name, *written)),
            None => None,
        }
    }
}
