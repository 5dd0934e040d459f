ghost use Rattle.std.specs.Prelude.{◌≡◌, ◌-◌, ◌<◌, ◌≤◌, ◌||◌, Some, length, min, IfSome, IfOk, OnErr, is_err, is_none};
ghost use Rattle.k_edge.specs.Faults.{Rose, fails_next, after_call};
ghost use Rattle.k_edge.specs.Files.{file_named, files_of};
ghost use Rattle.k_edge.specs.Shelf.{IsPiece};

use crate::fault_plan::FaultPlan;
use crate::files::{copy_piece, find_file};
use crate::{Failed, Shelf};
use std::marker::Model;

/// Files in memory, with calls that are made to fail.
#[derive(Debug, Drop)]
pub struct MemShelf {
    files: Vec<(String, Vec<u8>)>,
    plan: FaultPlan,
}

impl Model for MemShelf {
    ghost use Rattle.k_edge.specs.Files.{files_of};
    ghost use Rattle.k_edge.specs.MemShelf.{ShelfState};

    ghost Value = { ShelfState };

    ghost view = { λ it. record { files = files_of it.files.items; plan = it.plan } };
}

impl MemShelf {
    /// A shelf over these files, of which the first counts where several have one name. The calls of
    /// `read` whose numbers, counted from 1, stand in `fail` are to fail, in any order.
    pub fn new(files: Vec<(String, Vec<u8>)>, fail: Vec<u64>) -> MemShelf
        ensures files { result.files ≡ files_of files.items }
        ensures plan { result.plan ≡ record { fail = fail.items; calls = 0; faults = 0 } }
    {
        MemShelf {
            files,
            plan: FaultPlan::new(fail),
        }
    }
}

/// All files are told, and one count of faults serves for all names.
impl Shelf for MemShelf {
    ghost told = { λ it name. file_named it.files name };

    ghost faults = { λ it _. it.plan.faults };

    fn read(&mut self, name: &str, at: u64, buf: &mut [u8]) -> Result<usize, Failed>
        requires { 0 < length buf.old }
        ensures bound { IfOk result (λ n. n ≤ length buf.old) }
        ensures piece { IfSome (file_named self.old.files name.now) (λ file.
            IfOk result (λ n. IsPiece file at n buf.new)) }
        ensures later { self.old.plan.faults ≤ self.new.plan.faults }
        ensures failed { OnErr result (Rose self.old.plan.faults self.new.plan.faults) }

        // It fails at the listed calls and for a name that is not there, and at no others.
        ensures fails { is_err result ≡
            (fails_next self.old.plan || is_none (file_named self.old.files name.now)) }
        ensures files { self.new.files ≡ self.old.files }
        ensures plan { self.new.plan ≡ after_call self.old.plan (is_err result) }

        // As many bytes are read as there are and fit.
        ensures full { IfSome (file_named self.old.files name.now) (λ file.
            IfOk result (λ n. n ≡ min (length buf.old) (length file - at))) }
    {
        if self.plan.count_call() {
            return Err(self.plan.count_fault());
        }
        match find_file(&self.files, name) {
            Some(file) => Ok(copy_piece(file, at, buf)),
            None => Err(self.plan.count_fault()),
        }
    }
}
