ghost use Rattle.std.specs.Prelude.{◌≡◌, ℕ, ◌+◌, ◌<◌, ◌≤◌, List, length, vec_len, IfSome, IfOk, IsErrOf};
ghost use Rattle.k_edge.specs.Faults.{Rose};
ghost use Rattle.whole_files.specs.Reading.{IsReading, IsNextPiece};
ghost use Rattle.whole_files.specs.declared.read.Unread.TheVariants.{Fault, Memory};

use k_edge::{Failed, Shelf};
use std::alloc::{AllocError, Global};

/// Why a file was not read.
#[derive(Debug, Clone, Copy, PartialEq, Eq)]
pub enum Unread {
    /// The shelf failed.
    Fault,
    /// Memory was wanting.
    Memory,
}

impl From<AllocError> for Unread {
    ghost from_gives = { λ _ e. e ≡ Memory };

    fn from(_: AllocError) -> Unread {
        Unread::Memory
    }
}

impl From<Failed> for Unread {
    ghost from_gives = { λ _ e. e ≡ Fault };

    fn from(_: Failed) -> Unread {
        Unread::Fault
    }
}

/// The most bytes that are read at once.
const PIECE: usize = 4096;

/// Reads the file `name` piece by piece, from its first byte up to its end, or until there are more
/// bytes than `limit`. A file within the limit comes whole. Of a longer one come more than `limit`
/// bytes, so their number tells the caller that it is too long. The first fault of the shelf ends the
/// reading.
pub fn read_file<H: Shelf>(
    alloc: Global,
    shelf: &mut H,
    name: &str,
    limit: usize,
) -> Result<Vec<u8>, Unread>
    ensures whole { IfSome (H.told shelf.old name.now) (λ file.
        IfOk result (λ bytes. IsReading file limit bytes.items)) }
    ensures small { IfOk result (λ bytes. vec_len bytes ≤ limit + 4096) }
    ensures fault { IsErrOf result Unread.Fault →
        Rose (H.faults shelf.old name.now) (H.faults shelf.new name.now) }

    // What is told of each name stays as it was, and no count falls.
    ensures kept { (other : List ℕ) → H.told shelf.new other ≡ H.told shelf.old other }
    ensures later { (other : List ℕ) → H.faults shelf.old other ≤ H.faults shelf.new other }
{
    let mut bytes = Vec::new(alloc);
    let mut buffer = [0; PIECE];
    while bytes.len() <= limit {
        if append_piece(shelf, name, &mut bytes, &mut buffer)? == 0 {
            break;
        }
    }
    Ok(bytes)
}

/// Appends the next piece of the file to what was read of it so far. Gives the length of the piece,
/// which is 0 at the end of the file.
fn append_piece<H: Shelf>(
    shelf: &mut H,
    name: &str,
    bytes: &mut Vec<u8>,
    buffer: &mut [u8],
) -> Result<usize, Unread>
    requires { 0 < length buffer.old }
    ensures grown { IfOk result (λ n. vec_len bytes.new ≡ vec_len bytes.old + n) }
    ensures bound { IfOk result (λ n. n ≤ length buffer.old) }
    ensures piece { IfSome (H.told shelf.old name.now) (λ file.
        IfOk result (λ n. IsNextPiece file bytes.old.items n bytes.new.items)) }
    ensures fault { IsErrOf result Unread.Fault →
        Rose (H.faults shelf.old name.now) (H.faults shelf.new name.now) }
    ensures kept { (other : List ℕ) → H.told shelf.new other ≡ H.told shelf.old other }
    ensures later { (other : List ℕ) → H.faults shelf.old other ≤ H.faults shelf.new other }
{
    let count = shelf.read(name, bytes.len() as u64, buffer)?;
    bytes.extend_from_slice(&buffer[..count])?;
    Ok(count)
}
