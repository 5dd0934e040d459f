ghost use Rattle.std.specs.Prelude.{IfOk};
ghost use Rattle.span_rows.specs.Slots.{IsSlotOf};

use crate::row::{Held, Key};
use crate::steps::{count_after, sort_wanted};
use grammar_terms::Grammar;
use k_terms::Memory;

/// Where the next item of a production is a sort.
#[derive(Debug, Clone, Copy, PartialEq, Eq)]
pub struct Slot {
    /// The production.
    pub prod: u32,
    /// How many of its items were read.
    pub count: u32,
    /// How many are when one more is.
    pub after: u32,
    /// The shapes so far.
    pub held: Held,
    /// The sort.
    pub sort: u32,
}

/// The slot behind a front of a production, where its next item is a sort.
pub(crate) fn slot_of(grammar: &Grammar, key: &Key) -> Result<Option<Slot>, Memory>
    ensures { IfOk result (IsSlotOf grammar.now key.now) }
{
    let Key::Front(prod, count, held) = *key else {
        return Ok(None);
    };
    let Some(production) = grammar.production(prod) else {
        return Ok(None);
    };
    let Some(sort) = sort_wanted(production, count) else {
        return Ok(None);
    };
    Ok(Some(Slot {
        prod,
        count,
        after: count_after(production, count)?,
        held,
        sort,
    }))
}
