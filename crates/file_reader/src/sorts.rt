ghost use Rattle.std.specs.Prelude.{◌≡◌, [], List, ℕ, Some, OnOk};
ghost use Rattle.file_reader.specs.Files.{had, noted};

use indexmap::IndexMap;
use k_terms::Memory;
use std::alloc::Global;
use std::marker::Model;

/// The sorts that have a production, and whether that is a list production.
#[derive(Debug, Drop)]
pub(crate) struct Sorts {
    had: IndexMap<Vec<u8>, bool>,
}

impl Model for Sorts {
    ghost use Rattle.std.specs.Prelude.{List, ℕ, Bool, map};
    ghost use Rattle.file_reader.specs.Files.{Context};

    ghost Value = { Context };

    ghost view = { λ sorts. map (λ entry. (entry.0.items, entry.1)) sorts.had.entries };
}

impl Sorts {
    pub(crate) fn new(alloc: Global) -> Sorts
        ensures { result ≡ [] }
    {
        Sorts {
            had: IndexMap::new(alloc),
        }
    }

    /// Whether a sort has a production, and whether that is a list production.
    pub(crate) fn find(&self, sort: &[u8]) -> Option<bool>
        ensures { result ≡ had self.now sort.now }
    {
        self.had.get(sort).copied()
    }

    /// Notes that a sort has a production. Memory may be wanting.
    pub(crate) fn note(&mut self, sort: Vec<u8>, is_list: bool) -> Result<(), Memory>
        ensures { OnOk result ((other : List ℕ) → had self.new other ≡ had (noted self.old sort.items (Some is_list)) other) }
    {
        self.had.insert(sort, is_list)?;
        Ok(())
    }
}
