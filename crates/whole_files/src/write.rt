ghost use Rattle.std.specs.Prelude.{◌≡◌, ◌≤◌, OnOk, OnErr, is_some};
ghost use Rattle.std.specs.Io.KnownBytes.{Appends};
ghost use Rattle.k_edge.specs.Faults.{Rose};
ghost use Rattle.whole_files.specs.Writing.{AppendsFront};

use k_edge::{Failed, Sink};

/// Writes the whole text, by as many calls of `write` as that takes. The first fault of the sink ends
/// the writing, and leaves a front of the text written.
pub fn write_all<O: Sink>(out: &mut O, text: &[u8]) -> Result<(), Failed>
    ensures some { is_some (O.taken out.new) ≡ is_some (O.taken out.old) }
    ensures all { OnOk result (Appends (O.taken out.old) (O.taken out.new) text.now) }
    ensures front { OnErr result (AppendsFront (O.taken out.old) (O.taken out.new) text.now) }
    ensures later { O.faults out.old ≤ O.faults out.new }
    ensures cause { OnErr result (Rose (O.faults out.old) (O.faults out.new)) }
{
    let mut done = 0;
    while done < text.len() {
        done += out.write(&text[done..])?;
    }
    Ok(())
}
