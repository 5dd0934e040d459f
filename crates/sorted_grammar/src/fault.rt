ghost use Rattle.std.specs.Prelude.{◌≡◌};
ghost use Rattle.sorted_grammar.specs.declared.fault.SortFault.TheVariants.{Memory as WantOfMemory};

use k_terms::{Memory, Text};
use std::alloc::{AllocError, AllocFailed};
use thiserror::Error;

/// What a definition has a limited number of.
#[derive(Clone, Copy, Debug, PartialEq, Eq)]
pub enum What {
    /// Declared sorts: 256.
    Sorts,
    /// Productions: 1,024.
    Productions,
    /// Rules.
    Rules,
    /// Cells of a configuration.
    Cells,
    /// Tokens of a rule.
    RuleTokens,
    /// Cells of a rule's left side.
    PatternCells,
    /// Cells that a rule makes.
    NewCells,
}

/// Why sentences have no grammar. Of several the first of this order is answered: `TooMany` sorts, `TooMany` productions,
/// `NoSort`, `SubsortCycle`, `CyclicProduction`.
#[derive(Debug, Drop, PartialEq, Eq, Error)]
pub enum SortFault {
    /// There are more than allowed, so many in all.
    #[error("TooMany")]
    TooMany { what: What, n: u64 },
    /// The first sort of an item that is neither declared nor built in.
    #[error("NoSort")]
    NoSort { name: Text },
    /// The first sort, by first mention, that is below and above another one, or below itself by a subsort step.
    #[error("SubsortCycle")]
    SubsortCycle { sort: Text },
    /// The first production, no subsort step, that leads back to its own sort, so that some tokens would have readings
    /// without end.
    #[error("CyclicProduction")]
    CyclicProduction { prod: u32 },
    /// Memory was wanting.
    #[error("Memory")]
    Memory,
}

impl From<AllocError> for SortFault {
    ghost from_gives = { λ _ fault. fault ≡ WantOfMemory };

    fn from(_error: AllocError) -> SortFault {
        SortFault::Memory
    }
}

impl<T: Drop> From<AllocFailed<T>> for SortFault {
    ghost from_gives = { λ _ fault. fault ≡ WantOfMemory };

    fn from(_error: AllocFailed<T>) -> SortFault {
        SortFault::Memory
    }
}

impl From<Memory> for SortFault {
    ghost from_gives = { λ _ fault. fault ≡ WantOfMemory };

    fn from(_memory: Memory) -> SortFault {
        SortFault::Memory
    }
}
