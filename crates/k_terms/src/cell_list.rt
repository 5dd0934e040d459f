ghost use Rattle.std.specs.Prelude.{◌≡◌, ◌↔◌, ◌<◌, ◌≤◌, [], ◌∷◌, ◌++◌, length, slice_get, option_copied, IfOk, IsOk, IsTrue, OnOk, OnErr};
ghost use Rattle.std.specs.Slice.Iter.{iter_rest};
ghost use Rattle.std.specs.Cmp.{partial_equiv_from_equiv};
ghost use Rattle.std.specs.Cmp.Lexicographic.{pointwise, nat_list_eq_equiv};

use crate::memory::Memory;
use smallvec::SmallVec;
use std::alloc::Global;
use std::marker::Model;
use std::slice::Iter;

/// A list of cells by their numbers. Up to eight stand in the list itself and take no memory.
#[derive(Debug, Drop)]
pub struct CellList {
    cells: SmallVec<u32, 8>,
}

impl Model for CellList {
    ghost use Rattle.std.specs.Prelude.{List, ℕ, ◌≤◌};
    ghost use Rattle.std.specs.Coded.{coded_list, coded_ℕ};

    ghost Value = { List ℕ };

    ghost coded = { coded_list coded_ℕ };

    ghost view = { λ list. list.cells.items };

    ghost invariant = { λ list. 8 ≤ list.cells.capacity };
}

impl CellList {
    pub fn new(alloc: Global) -> CellList
        ensures { result ≡ [] }
    {
        CellList {
            cells: SmallVec::new(alloc),
        }
    }

    pub fn from_slice(alloc: Global, cells: &[u32]) -> Result<CellList, Memory>
        ensures ok { IfOk result (λ list. list ≡ cells.now) }
        ensures inline { length cells.now ≤ 8 → IsOk result }
    {
        Ok(CellList {
            cells: SmallVec::from_slice(alloc, cells)?,
        })
    }

    pub fn len(&self) -> usize
        ensures { result ≡ length self.now }
    {
        self.cells.len()
    }

    pub fn is_empty(&self) -> bool
        ensures { IsTrue result ↔ (self.now ≡ []) }
    {
        self.as_slice().is_empty()
    }

    pub fn as_slice(&self) -> &[u32]
        ensures { result.now ≡ self.now }
    {
        self.cells.as_slice()
    }

    pub fn get(&self, index: usize) -> Option<u32>
        ensures { result ≡ slice_get self.now index }
    {
        self.as_slice().get(index).copied()
    }

    pub fn iter(&self) -> Iter<'_, u32>
        ensures { iter_rest result ≡ self.now }
    {
        self.as_slice().iter()
    }

    /// Adds a cell at the end. An `Err` leaves the list as it was.
    pub fn push(&mut self, cell: u32) -> Result<(), Memory>
        ensures ok { OnOk result (self.new ≡ self.old ++ cell ∷ []) }
        ensures err { OnErr result (self.new ≡ self.old) }
        ensures inline { length self.old < 8 → IsOk result }
    {
        self.cells.push(cell)?;
        Ok(())
    }

    pub fn copy(&self) -> Result<CellList, Memory>
        ensures ok { IfOk result (λ copy. copy ≡ self.now) }
        ensures inline { length self.now ≤ 8 → IsOk result }
    {
        CellList::from_slice(*self.cells.allocator(), self.as_slice())
    }

    pub fn equal(a: &CellList, b: &CellList) -> bool
        ensures { IsTrue result ↔ (a.now ≡ b.now) }
    {
        a == b
    }
}

impl PartialEq for CellList {
    ghost use Rattle.std.specs.Prelude.{nat_eq};

    ghost eq = { pointwise nat_eq };

    ghost laws = { partial_equiv_from_equiv nat_list_eq_equiv };

    fn eq(&self, other: &Self) -> bool {
        self.as_slice() == other.as_slice()
    }
}

impl Eq for CellList {
    ghost laws = { nat_list_eq_equiv };
}
