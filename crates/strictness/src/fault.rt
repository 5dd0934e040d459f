ghost use Rattle.std.specs.Prelude.{◌≡◌};
ghost use Rattle.strictness.specs.declared.fault.StrictFault.TheVariants.{Memory as WantOfMemory};

use k_terms::Memory;
use std::alloc::{AllocError, AllocFailed};
use thiserror::Error;

/// Why the strict productions of a grammar have no rules.
#[derive(Clone, Copy, Debug, PartialEq, Eq, Error)]
pub enum StrictFault {
    /// The least production that may not be strict as it says, and its least place that is bad: one that it names and
    /// that is none of its arguments, or one of sort K, Map or List. Place 0 stands for the production as a whole: it
    /// has no argument, or is a bracket, or has both attributes.
    #[error("BadStrict")]
    BadStrict { prod: u32, place: u32 },
    /// Memory was wanting, or a number is above those of `u32`, which no grammar that was read has.
    #[error("Memory")]
    Memory,
}

impl From<AllocError> for StrictFault {
    ghost from_gives = { λ _ fault. fault ≡ WantOfMemory };

    fn from(_error: AllocError) -> StrictFault {
        StrictFault::Memory
    }
}

impl<T: Drop> From<AllocFailed<T>> for StrictFault {
    ghost from_gives = { λ _ fault. fault ≡ WantOfMemory };

    fn from(_error: AllocFailed<T>) -> StrictFault {
        StrictFault::Memory
    }
}

impl From<Memory> for StrictFault {
    ghost from_gives = { λ _ fault. fault ≡ WantOfMemory };

    fn from(_memory: Memory) -> StrictFault {
        StrictFault::Memory
    }
}
