ghost use Rattle.std.specs.Prelude.{◌≡◌, ℕ, ◌<◌, ◌≤◌, List, Option, length, IfSome, IfOk, OnErr};
ghost use Rattle.k_edge.specs.Faults.{Rose};
ghost use Rattle.k_edge.specs.Shelf.{IsPiece};

/// Reading or writing failed. What went wrong is not told; the count of faults of the shelf or the sink
/// shows that something did.
#[derive(Debug, Clone, Copy, PartialEq, Eq)]
pub struct Failed;

/// Files that are read piece by piece, by their names.
///
/// `told` gives the bytes of each name, a text seen as its bytes, where they are told. A shelf that
/// cannot know them, as one over a file system, tells none. `faults` counts the faults of each name. It
/// never falls, and stands still at 2^64 - 1. A shelf may keep one count for all names.
pub trait Shelf {
    ghost told: { Self → List ℕ → Option (List ℕ) };

    ghost faults: { Self → List ℕ → ℕ };

    /// Reads bytes of the file `name`, from its byte `at` on, into the front of `buf`, and gives their
    /// number: 0 where the file ends at or before `at`. A name that is not there is a fault, as is
    /// whatever else keeps the shelf from reading. What `buf` holds behind those bytes, or after a
    /// fault, is left open.
    fn read(&mut self, name: &str, at: u64, buf: &mut [u8]) -> Result<usize, Failed>
        requires { 0 < length buf.old }
        ensures bound { IfOk result (λ n. n ≤ length buf.old) }
        ensures piece { IfSome (told self.old name.now) (λ file.
            IfOk result (λ n. IsPiece file at n buf.new)) }

        // What is told of each name stays as it was, and no count falls.
        ensures kept { (other : List ℕ) → told self.new other ≡ told self.old other }
        ensures later { (other : List ℕ) → faults self.old other ≤ faults self.new other }
        ensures failed { OnErr result (Rose (faults self.old name.now) (faults self.new name.now)) };
}
