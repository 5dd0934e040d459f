//! The modules by their names.
ghost use Rattle.std.specs.Prelude.{◌≡◌, true, IfOk};
ghost use Rattle.k_terms.specs.Names.{number_of};
ghost use Rattle.file_reader.specs.Files.{are_different};

use indexmap::IndexSet;
use k_terms::{Memory, Text};
use std::alloc::Global;
use std::marker::Model;

/// The names of the modules, in their order. A module's number is the place of its name.
#[derive(Drop)]
pub struct ModuleNames<'a> {
    names: IndexSet<&'a [u8]>,
}

impl<'a> Model for ModuleNames<'a> {
    ghost use Rattle.std.specs.Prelude.{List, ℕ, map};

    ghost Value = { List (List ℕ) };

    ghost view = { λ modules. map (λ name. name.now) modules.names.keys };
}

impl<'a> ModuleNames<'a> {
    /// The time is linear in the names' bytes.
    pub fn new(alloc: Global, names: &'a [Text]) -> Result<ModuleNames<'a>, Memory>
        requires { are_different names.now ≡ true }
        ensures { IfOk result (λ modules. modules ≡ names.now) }
    {
        let mut set: IndexSet<&'a [u8]> = IndexSet::new(alloc);
        for name in names {
            set.insert(name.as_slice())?;
        }
        Ok(ModuleNames { names: set })
    }

    /// The number of the module of a name.
    pub fn number(&self, name: &[u8]) -> Option<usize>
        ensures { result ≡ number_of self.now name.now }
    {
        self.names.get_index_of(name)
    }
}
