ghost use Rattle.std.specs.Prelude.{◌≡◌};
ghost use Rattle.rule_drafts.specs.declared.fault.DraftFault.TheVariants.{Memory as WantOfMemory};

use k_terms::{Memory, Symbol};
use std::alloc::{AllocError, AllocFailed};

/// A variable of the right side or the condition that the left side does not have.
#[derive(Clone, Copy, Debug, PartialEq, Eq)]
pub enum Unbound {
    /// A named variable, by the symbol of its word.
    Named(Symbol),
    /// A `_`.
    Wild,
    /// The rest of a `...`.
    Dots,
}

/// Why the readings of a rule's contents make no draft.
#[derive(Clone, Copy, Debug, PartialEq, Eq)]
pub enum DraftFault {
    /// A content or term of a form that no rule has, by the number of its first token; the first such one.
    PatternForm { token: usize },
    /// The first variable of the right side or the condition that the left side does not have, where every form is one
    /// that a rule may have.
    NotBoundLeft { var: Unbound },
    /// Memory was wanting.
    Memory,
}

impl From<AllocError> for DraftFault {
    ghost from_gives = { λ _ fault. fault ≡ WantOfMemory };

    fn from(_error: AllocError) -> DraftFault {
        DraftFault::Memory
    }
}

impl<T: Drop> From<AllocFailed<T>> for DraftFault {
    ghost from_gives = { λ _ fault. fault ≡ WantOfMemory };

    fn from(_error: AllocFailed<T>) -> DraftFault {
        DraftFault::Memory
    }
}

impl From<Memory> for DraftFault {
    ghost from_gives = { λ _ fault. fault ≡ WantOfMemory };

    fn from(_memory: Memory) -> DraftFault {
        DraftFault::Memory
    }
}
