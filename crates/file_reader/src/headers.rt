//! The headers of modules.
ghost use Rattle.std.specs.Prelude.{◌≤◌, length, drop, MatchResult, IfOk};
ghost use Rattle.production_reader.specs.Reading.{IsReadAs, Stops};
ghost use Rattle.file_reader.specs.Written.{signs_of_header, text_of_name};
ghost use Rattle.file_reader.specs.Files.{IsName, EndsName};

use crate::names::read_name;
use crate::words::{has_word, past};
use k_terms::Text;
use production_reader::{Source, Stop};
use std::alloc::Global;

/// Reads the word with which a module begins, and its name.
pub(crate) fn read_header(
    alloc: Global,
    source: &Source<'_>,
    from: usize,
) -> Result<(Text, usize), Stop>
    requires { from ≤ length source.now }
    ensures read { MatchResult result (λ found. IsReadAs IsName signs_of_header EndsName text_of_name source.now from found.0 found.1)
        (λ stop. Stops IsName signs_of_header EndsName source.now from stop) }
    ensures ended { IfOk result (λ found. EndsName (drop found.1 source.now)) }
{
    if !has_word(source, from, "module") {
        return Err(Stop::Expected { at: from });
    }
    match read_name(alloc, source, past(source, from)) {
        Ok((name, next)) => Ok((name, next)),
        Err(stop) => Err(stop),
    }
}
