ghost use Rattle.std.specs.Prelude.{◌≡◌, ◌++◌, ◌∷◌, [], false, OnOk};
ghost use Rattle.production_reader.specs.Allowed.{is_among as among};

use indexmap::IndexSet;
use k_terms::Memory;
use std::alloc::Global;
use std::marker::Model;

/// The names of the modules that were read.
#[derive(Debug, Drop)]
pub(crate) struct Seen {
    names: IndexSet<Vec<u8>>,
}

impl Model for Seen {
    ghost use Rattle.std.specs.Prelude.{List, ℕ, map};

    ghost Value = { List (List ℕ) };

    ghost view = { λ seen. map (λ name. name.items) seen.names.keys };
}

impl Seen {
    pub(crate) fn new(alloc: Global) -> Seen
        ensures { result ≡ [] }
    {
        Seen {
            names: IndexSet::new(alloc),
        }
    }

    /// Whether a module of this name was read.
    pub(crate) fn has(&self, name: &[u8]) -> bool
        ensures { result ≡ among self.now name.now }
    {
        self.names.contains(name)
    }

    /// Adds a name that is new. Memory may be wanting.
    pub(crate) fn add(&mut self, name: Vec<u8>) -> Result<(), Memory>
        requires { among self.old name.items ≡ false }
        ensures { OnOk result (self.new ≡ self.old ++ name.items ∷ []) }
    {
        self.names.insert(name)?;
        Ok(())
    }
}
