ghost use Rattle.std.specs.Prelude.{◌≡◌};
ghost use Rattle.module_reader.specs.declared.fault.ModuleFault.TheVariants.{Memory as WantOfMemory};

use k_terms::{Memory, Text};
use std::alloc::{AllocError, AllocFailed};
use thiserror::Error;

/// Why a text has no modules that can be put together. Of several the first of this order is answered: `Expected` or
/// `TwoModules`, whichever stands first in the text; then `NoModule`; then `ImportCycle`.
#[derive(Debug, Drop, PartialEq, Eq, Error)]
pub enum ModuleFault {
    /// No file can go on with the token that begins at this byte, or end here where it is the text's length.
    #[error("Expected")]
    Expected { at: usize },
    /// The first import of the text that names no module of the file.
    #[error("NoModule")]
    NoModule { name: Text },
    /// The first module of the text that imports itself, by others or directly.
    #[error("ImportCycle")]
    ImportCycle { name: Text },
    /// A module has the name of one before it.
    #[error("TwoModules")]
    TwoModules { name: Text },
    /// Memory was wanting.
    #[error("Memory")]
    Memory,
}

impl From<AllocError> for ModuleFault {
    ghost from_gives = { λ _ fault. fault ≡ WantOfMemory };

    fn from(_error: AllocError) -> ModuleFault {
        ModuleFault::Memory
    }
}

impl<T: Drop> From<AllocFailed<T>> for ModuleFault {
    ghost from_gives = { λ _ fault. fault ≡ WantOfMemory };

    fn from(_error: AllocFailed<T>) -> ModuleFault {
        ModuleFault::Memory
    }
}

impl From<Memory> for ModuleFault {
    ghost from_gives = { λ _ fault. fault ≡ WantOfMemory };

    fn from(_memory: Memory) -> ModuleFault {
        ModuleFault::Memory
    }
}
