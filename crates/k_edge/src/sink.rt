ghost use Rattle.std.specs.Prelude.{◌≡◌, ℕ, ◌<◌, ◌≤◌, List, Option, length, IfOk, OnErr, is_some};
ghost use Rattle.std.specs.Io.KnownBytes.{WriteAppends};
ghost use Rattle.k_edge.specs.Faults.{Rose};

use crate::Failed;

/// A place that bytes are written to, one after another.
///
/// `taken` gives all the bytes that were taken so far, where they are told. A sink that cannot know
/// them, as one over a terminal, tells none. `faults` counts the faults. It never falls, and stands
/// still at 2^64 - 1.
pub trait Sink {
    ghost taken: { Self → Option (List ℕ) };

    ghost faults: { Self → ℕ };

    /// Takes some bytes from the front of `buf`, at least one, and gives their number.
    fn write(&mut self, buf: &[u8]) -> Result<usize, Failed>
        requires { 0 < length buf.now }
        ensures bound { IfOk result (λ n. (1 ≤ n) × (n ≤ length buf.now)) }

        // The bytes that were taken are added at the end, and nothing is after a fault.
        ensures some { is_some (taken self.new) ≡ is_some (taken self.old) }
        ensures bytes { WriteAppends (taken self.old) (taken self.new) result buf.now }

        // The count never falls, and has risen after a fault.
        ensures later { faults self.old ≤ faults self.new }
        ensures cause { OnErr result (Rose (faults self.old) (faults self.new)) };
}
