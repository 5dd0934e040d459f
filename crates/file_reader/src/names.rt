//! The names of modules.
ghost use Rattle.std.specs.Prelude.{◌≡◌, ◌≤◌, ◌∷◌, ◌++◌, length, drop, MatchResult, IfOk, OnOk};
ghost use Rattle.production_reader.specs.Reading.{IsReadAs, Stops};
ghost use Rattle.file_reader.specs.Written.{signs_of_name, text_of_name};
ghost use Rattle.file_reader.specs.Files.{IsName, EndsName};

use crate::words::{has_dash, joined_word_at, past, word_at};
use k_terms::{Many, Memory, Text};
use production_reader::{Source, Stop};
use std::alloc::Global;

/// Adds a dash and a word to a name.
fn add_word(name: &mut Vec<u8>, word: &[u8]) -> Result<(), Memory>
    ensures { OnOk result (name.new.items ≡ name.old.items ++ 45 ∷ word.now) }
{
    name.push(b'-')?;
    name.extend_from_slice(word)?;
    Ok(())
}

/// Reads a name: words with dashes between them, and no blanks.
pub(crate) fn read_name(
    alloc: Global,
    source: &Source<'_>,
    from: usize,
) -> Result<(Text, usize), Stop>
    requires { from ≤ length source.now }
    ensures read { MatchResult result (λ found. IsReadAs IsName signs_of_name EndsName text_of_name source.now from found.0 found.1)
        (λ stop. Stops IsName signs_of_name EndsName source.now from stop) }
    ensures ended { IfOk result (λ found. EndsName (drop found.1 source.now)) }
{
    let Some(first) = word_at(source, from) else {
        return Err(Stop::Expected { at: from });
    };
    let Ok(mut name) = Vec::from_slice(alloc, first) else {
        return Err(Stop::Memory);
    };
    let mut at = past(source, from);
    'dashes: while has_dash(source, at) {
        let after = past(source, at);
        let Some(next) = joined_word_at(source, after) else {
            return Err(Stop::Expected { at: after });
        };
        let Ok(()) = add_word(&mut name, next) else {
            return Err(Stop::Memory);
        };
        at = past(source, after);
    }
    Ok((Many::from_vec(name), at))
}
