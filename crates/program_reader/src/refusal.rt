ghost use Rattle.std.specs.Prelude.{◌≡◌};
ghost use Rattle.program_reader.specs.declared.refusal.ReadRefusal.TheVariants.{Memory as WantOfMemory};

use k_terms::{Memory as NoMemory, Value};

/// Why a text is no program at a sort, or why its words are none.
#[derive(Debug, Drop, PartialEq, Eq)]
pub enum ReadRefusal {
    /// The text has more bytes than its limit.
    TooBig {
        /// The limit, in bytes.
        bytes: u64,
    },
    /// It has more tokens than the limit.
    TooLong {
        /// Their number, up to the first place at which no token begins.
        tokens: u64,
    },
    /// At this byte no token of the grammar begins.
    BadToken {
        /// The place of the byte.
        at: usize,
    },
    /// A number is greater than the greatest one of 128 bits with a sign.
    WideNumber {
        /// The place of its first digit.
        at: usize,
    },
    /// The tokens have no reading.
    NoReading {
        /// Of a program 0.
        at: usize,
    },
    /// The tokens have two different readings, or more.
    Ambiguous {
        /// The lesser of two of them.
        first: Value,
        /// The greater.
        second: Value,
    },
    /// The value is deeper than the limit.
    TooDeep {
        /// Its depth.
        depth: u32,
    },
    /// Memory was wanting.
    Memory,
}

impl From<NoMemory> for ReadRefusal {
    ghost from_gives = { λ _ refusal. refusal ≡ WantOfMemory };

    fn from(_memory: NoMemory) -> ReadRefusal {
        ReadRefusal::Memory
    }
}
