ghost use Rattle.std.specs.Prelude.{◌≡◌, ◌≢◌, ◌<◌, ◌≤◌, ◌⊎◌, List, ℕ, None, length, true, IfSome, IfOk, IfErr};
ghost use Rattle.krun.specs.Outcome.{is_stop};
ghost use Rattle.krun.specs.declared.outcome.Outcome.TheVariants.{Usage as WantOfWords, Memory as WantOfMemory, ReadFault as FaultOf};
ghost use Rattle.k_edge.specs.Faults.{Rose};

use crate::outcome::{Outcome, Which};
use k_edge::Shelf;
use std::alloc::Global;
use whole_files::{Unread, read_file};

/// The bytes of a file within a limit, and of a longer one more bytes than the limit.
pub fn file_bytes<H: Shelf>(
    alloc: Global,
    shelf: &mut H,
    name: &str,
    limit: usize,
    which: Which,
) -> Result<Vec<u8>, Outcome>
    ensures kept { (other : List ℕ) → H.told shelf.new other ≡ H.told shelf.old other }
    ensures whole { IfSome (H.told shelf.old name.now) (λ file.
        IfOk result (λ bytes. length bytes.items ≤ limit → bytes.items ≡ file)) }
    ensures all { IfSome (H.told shelf.old name.now) (λ file.
        IfOk result (λ bytes. length file ≤ limit → bytes.items ≡ file)) }
    ensures refused { IfErr result (λ refusal. is_stop refusal ≡ true) }
    ensures words { IfErr result (λ refusal. refusal ≢ WantOfWords) }
    ensures later { (other : List ℕ) → H.faults shelf.old other ≤ H.faults shelf.new other }
    ensures only { IfErr result (λ refusal. (refusal ≡ WantOfMemory) ⊎ (refusal ≡ FaultOf which)) }
    ensures fault { IfErr result (λ refusal. refusal ≡ FaultOf which →
        Rose (H.faults shelf.old name.now) (H.faults shelf.new name.now)) }
{
    match read_file(alloc, shelf, name, limit) {
        Ok(bytes) => Ok(bytes),
        Err(Unread::Fault) => Err(Outcome::ReadFault(which)),
        Err(Unread::Memory) => Err(Outcome::Memory),
    }
}
