ghost use Rattle.std.specs.Prelude.{◌≡◌, ◌-◌, ◌<◌, ◌≤◌, Some, length, min, IfOk, IsOk};
ghost use Rattle.k_edge.specs.Files.{bytes_named, files_of};
ghost use Rattle.k_edge.specs.Shelf.{IsPiece};

use crate::files::{copy_piece, find_file};
use crate::{Failed, Shelf};
use std::marker::Model;

/// Files in memory, of which every read succeeds.
#[derive(Debug, Drop)]
pub struct SureShelf {
    files: Vec<(String, Vec<u8>)>,
}

impl Model for SureShelf {
    ghost use Rattle.std.specs.Prelude.{ℕ, List};
    ghost use Rattle.k_edge.specs.Files.{files_of};

    ghost Value = { List (List ℕ × List ℕ) };

    ghost view = { λ it. files_of it.files.items };
}

impl SureShelf {
    /// A shelf over these files, of which the first counts where several have one name.
    pub fn new(files: Vec<(String, Vec<u8>)>) -> SureShelf
        ensures { result ≡ files_of files.items }
    {
        SureShelf { files }
    }
}

/// All files are told, and a name that is not there holds no bytes. The count of faults stays at 0.
impl Shelf for SureShelf {
    ghost told = { λ files name. Some (bytes_named files name) };

    ghost faults = { λ _ _. 0 };

    fn read(&mut self, name: &str, at: u64, buf: &mut [u8]) -> Result<usize, Failed>
        requires { 0 < length buf.old }
        ensures bound { IfOk result (λ n. n ≤ length buf.old) }
        ensures piece { IfOk result (λ n. IsPiece (bytes_named self.old name.now) at n buf.new) }
        ensures files { self.new ≡ self.old }

        // It never fails, and reads as many bytes as there are and fit.
        ensures succeeds { IsOk result }
        ensures full { let file = bytes_named self.old name.now in
            IfOk result (λ n. n ≡ min (length buf.old) (length file - at)) }
    {
        let file = find_file(&self.files, name).unwrap_or(&[]);
        Ok(copy_piece(file, at, buf))
    }
}
