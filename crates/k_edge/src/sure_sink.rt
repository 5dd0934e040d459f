ghost use Rattle.std.specs.Prelude.{◌≡◌, ◌<◌, None, length};

use crate::{Failed, Sink};

/// A sink that takes all it is given, and keeps nothing.
#[derive(Debug, Default, Drop)]
pub struct SureSink;

impl SureSink {
    /// A sink, of which there is one kind.
    pub fn new() -> SureSink {
        SureSink
    }
}

/// Every piece is taken whole. No bytes are told, and the count of faults stays at 0.
impl Sink for SureSink {
    ghost taken = { λ _. None };

    ghost faults = { λ _. 0 };

    fn write(&mut self, buf: &[u8]) -> Result<usize, Failed>
        requires { 0 < length buf.now }
        ensures whole { result ≡ Ok (length buf.now) }
    {
        Ok(buf.len())
    }
}
