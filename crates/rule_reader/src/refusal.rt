ghost use Rattle.std.specs.Prelude.{◌≡◌};
ghost use Rattle.rule_reader.specs.declared.refusal.RuleFault.TheVariants.{Memory as WantOfMemory};

use k_terms::{Memory, Text};
use sorted_grammar::What;
use std::alloc::{AllocError, AllocFailed};

/// Why the text of a rule is none. Places are those of bytes in the text of the definition, counted from 0; variables and
/// sorts are told by their names.
#[derive(Debug, Drop, PartialEq, Eq)]
pub enum RuleFault {
    /// There are more than 512 tokens: this many, up to the first place at which none begins.
    TooMany {
        what: What,
        n: u64,
    },
    /// No token begins here.
    BadToken {
        at: usize,
    },
    /// The number that begins here is above the greatest, 2^127 - 1.
    WideNumber {
        at: usize,
    },
    /// Of this variable no sort is written. It is the first such one of the text.
    Unsorted {
        var: Text,
    },
    /// Of this variable two different sorts are written, these first. It is the first such one of the text.
    SortClash {
        var: Text,
        first: Text,
        second: Text,
    },
    /// No cells go on with the token that begins here, or a tag or bracket is open where the body ends here, or the content
    /// or condition that begins here has no reading.
    NoReading {
        at: usize,
    },
    /// The content or condition that begins here has two readings or more.
    AmbiguousAt {
        at: usize,
    },
    /// A content or a term of a form that no rule has begins here. It is the first such one of the text.
    PatternForm {
        at: usize,
    },
    /// This variable of the right side or the condition doesn't stand on the left side. It is the first such one of the text;
    /// `_` and `...` are variables of their own.
    NotBoundLeft {
        var: Text,
    },
    /// Memory was wanting.
    Memory,
}

/// The refusal of a rule.
#[derive(Debug, Drop, PartialEq, Eq)]
pub struct RuleRefusal {
    /// The place of the first byte of the rule's word `rule`.
    pub at: usize,
    /// Why it is refused.
    pub fault: RuleFault,
}

impl From<Memory> for RuleFault {
    ghost from_gives = { λ _ fault. fault ≡ WantOfMemory };

    fn from(_memory: Memory) -> RuleFault {
        RuleFault::Memory
    }
}

impl From<AllocError> for RuleFault {
    ghost from_gives = { λ _ fault. fault ≡ WantOfMemory };

    fn from(_error: AllocError) -> RuleFault {
        RuleFault::Memory
    }
}

impl<T: Drop> From<AllocFailed<T>> for RuleFault {
    ghost from_gives = { λ _ fault. fault ≡ WantOfMemory };

    fn from(_error: AllocFailed<T>) -> RuleFault {
        RuleFault::Memory
    }
}
