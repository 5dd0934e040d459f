//! The sentences of a module, one after another.
ghost use Rattle.std.specs.Prelude.{◌≡◌, ◌≤◌, ◌++◌, [], length, MatchResult, OnOk};
ghost use Rattle.production_reader.specs.Reading.{Stops};
ghost use Rattle.file_reader.specs.Written.{signs_of_body};
ghost use Rattle.file_reader.specs.Files.{AreSentences};
ghost use Rattle.file_reader.specs.Reads.{Anything, IsBodyRead, import_in, sentence_in};

use crate::read::Read;
use crate::sentence::Sentence;
use crate::sentences::read_sentence;
use crate::sorts::Sorts;
use crate::words::{has_word, past};
use k_lexer::Token;
use k_terms::{Many, Memory, Text};
use production_reader::{Source, Stop};
use std::alloc::Global;

/// What stands in a module: the names of the modules that it imports, and its other sentences.
#[derive(Debug, Drop)]
pub(crate) struct Body {
    pub(crate) imports: Many<Text>,
    pub(crate) sentences: Many<Sentence>,
}

/// Adds what was read to a module.
fn add_read(body: &mut Body, read: Read) -> Result<(), Memory>
    ensures imports { OnOk result (body.new.imports ≡ body.old.imports ++ import_in read) }
    ensures sentences { OnOk result (body.new.sentences ≡ body.old.sentences ++ sentence_in read) }
{
    match read {
        Read::Import(name) => body.imports.push(name)?,
        Read::Other(sentence) => body.sentences.push(sentence)?,
    }
    Ok(())
}

/// Reads the sentences of a module from a place on, and the word that ends it.
pub(crate) fn read_body(
    alloc: Global,
    source: &Source<'_>,
    tokens: &[Token],
    from: usize,
    sorts: &mut Sorts,
) -> Result<(Body, usize), Stop>
    requires { from ≤ length source.now }
    ensures { MatchResult result (λ found. IsBodyRead tokens.now source.now from sorts.old sorts.new found.0.imports found.0.sentences found.1)
        (λ stop. Stops (AreSentences sorts.old) signs_of_body Anything source.now from stop) }
{
    let mut body = Body {
        imports: Many::new(alloc),
        sentences: Many::new(alloc),
    };
    let mut at = from;
    'sentences: while !has_word(source, at, "endmodule") {
        let (read, next) = match read_sentence(alloc, source, tokens, at, sorts) {
            Ok((read, next)) => (read, next),
            Err(stop) => return Err(stop),
        };
        let Ok(()) = add_read(&mut body, read) else {
            return Err(Stop::Memory);
        };
        at = next;
    }
    Ok((body, past(source, at)))
}
