ghost use Rattle.std.specs.Prelude.{◌≡◌};
ghost use Rattle.krun.specs.Outcome.{status_of, text_of, outcome_of, HasFixedText};
ghost use Rattle.krun.specs.declared.outcome.Outcome.TheVariants.{Memory as WantOfMemory};

use context_transform::DefFault;
use k_terms::Memory;
use program_reader::ReadRefusal;

/// A file that is read.
#[derive(Clone, Copy, Debug, PartialEq, Eq)]
pub enum Which {
    Definition,
    Program,
}

/// How a call of the program ended.
#[derive(Debug, Drop, PartialEq, Eq)]
pub enum Outcome {
    /// No rule matches the configuration.
    Final,
    /// The budget is used up, and a rule still matches.
    Budget,
    /// What was asked for is shown.
    Shown,
    /// The words are no job.
    Usage,
    /// The definition was refused. The fault is never want of memory, which is an outcome of its own.
    Definition(DefFault),
    /// The definition is none that can be run yet.
    Unbuilt,
    /// The program was refused.
    Program(ReadRefusal),
    /// A file could not be read.
    ReadFault(Which),
    /// Memory was wanting.
    Memory,
}

impl From<Memory> for Outcome {
    ghost from_gives = { λ _ e. e ≡ WantOfMemory };

    fn from(_memory: Memory) -> Outcome {
        Outcome::Memory
    }
}

impl From<DefFault> for Outcome {
    ghost from_gives = { λ fault e. e ≡ outcome_of fault };

    fn from(fault: DefFault) -> Outcome {
        match fault {
            DefFault::Memory => Outcome::Memory,
            fault => Outcome::Definition(fault),
        }
    }
}

/// The status of the program where memory was wanting.
pub const MEMORY: u8 = 7;

/// The status of the program where the text could not be written.
pub const WRITE_FAULT: u8 = 6;

impl Outcome {
    /// The exit status of the program.
    pub fn status(&self) -> u8
        ensures { result ≡ status_of self.now }
    {
        match self {
            Outcome::Final => 0,
            Outcome::Budget => 1,
            Outcome::Shown => 0,
            Outcome::Usage => 2,
            Outcome::Definition(_) => 3,
            Outcome::Unbuilt => 3,
            Outcome::Program(_) => 4,
            Outcome::ReadFault(_) => 5,
            Outcome::Memory => MEMORY,
        }
    }

    /// The line that a refusal writes which is no fault of a definition, and of a program only where a run refuses it. A run and
    /// what is shown have a text of their own, and a fault of reading and want of memory have none.
    pub fn fixed_line(&self) -> &'static [u8]
        requires { HasFixedText self.now }
        ensures { result.now ≡ text_of self.now }
    {
        match self {
            Outcome::Usage => {
                b"usage: krun MODE DEF [PGM] [TRACE] [--depth N] [--workers N] [--in LIST] [--trace | --waves | --cover]\n"
            }
            Outcome::Unbuilt => b"definition 29 Unbuilt\n",
            Outcome::Program(ReadRefusal::NoReading { .. }) => b"program 13 NoReading at=0\n",
            _ => b"",
        }
    }
}
