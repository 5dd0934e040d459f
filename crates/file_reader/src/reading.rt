ghost use Rattle.std.specs.Prelude.{◌≡◌, ◌≤◌, ◌<◌, ◌++◌, ◌∷◌, [], length, false, MatchResult, OnOk};
ghost use Rattle.production_reader.specs.Lexemes.{lexemes};
ghost use Rattle.production_reader.specs.Sources.{AreWithin};
ghost use Rattle.production_reader.specs.Allowed.{is_among as among};
ghost use Rattle.file_reader.specs.Progress.{IsReading};
ghost use Rattle.file_reader.specs.Reads.{IsFileRead, IsFileStop, file_stop};

use crate::bodies::{Body, read_body};
use crate::file::{FileModules, FileStop};
use crate::headers::read_header;
use crate::seen::Seen;
use crate::sorts::Sorts;
use k_lexer::Token;
use k_terms::{Many, Memory, Text};
use production_reader::{Source, Stop};
use std::alloc::Global;

/// What was read of a file: the names of its modules, what its sorts have, and what the modules say.
#[derive(Debug, Drop)]
struct Reading {
    seen: Seen,
    sorts: Sorts,
    found: FileModules,
}

/// Why a reader of modules stops where one of a part of a module did.
fn stop_of(stop: Stop) -> FileStop
    ensures { result ≡ file_stop stop }
{
    match stop {
        Stop::Expected { at } => FileStop::Expected { at },
        Stop::Memory => FileStop::Memory,
    }
}

/// Adds what a module says.
fn add_found(found: &mut FileModules, name: Text, body: Body) -> Result<(), Memory>
    ensures names { OnOk result (found.new.names ≡ found.old.names ++ name ∷ []) }
    ensures imports { OnOk result (found.new.imports ≡ found.old.imports ++ body.imports ∷ []) }
    ensures sentences { OnOk result (found.new.sentences ≡ found.old.sentences ++ body.sentences ∷ []) }
{
    found.names.push(name)?;
    found.imports.push(body.imports)?;
    found.sentences.push(body.sentences)?;
    Ok(())
}

/// Adds a name that is new.
fn add_name(alloc: Global, seen: &mut Seen, name: &Text) -> Result<(), Memory>
    requires { among seen.old name.now ≡ false }
    ensures { OnOk result (seen.new ≡ seen.old ++ name.now ∷ []) }
{
    let owned = Vec::from_slice(alloc, name.as_slice())?;
    seen.add(owned)
}

/// Reads the module that begins at a place. Gives the number of the token that follows.
fn read_module(
    alloc: Global,
    source: &Source<'_>,
    tokens: &[Token],
    from: usize,
    reading: &mut Reading,
) -> Result<usize, FileStop>
    requires reading { IsReading tokens.now source.now reading.old.seen reading.old.sorts reading.old.found from }
    requires going { (from ≡ 0 → ⊥) → from < length source.now }
    ensures { MatchResult result (λ next. IsReading tokens.now source.now reading.new.seen reading.new.sorts reading.new.found next × (from < next))
        (λ stop. IsFileStop source.now stop) }
{
    let (name, next) = match read_header(alloc, source, from) {
        Ok((name, next)) => (name, next),
        Err(stop) => return Err(stop_of(stop)),
    };
    if reading.seen.has(name.as_slice()) {
        return Err(FileStop::TwoModules { name });
    }
    let (body, past) = match read_body(alloc, source, tokens, next, &mut reading.sorts) {
        Ok((body, past)) => (body, past),
        Err(stop) => return Err(stop_of(stop)),
    };
    let Ok(()) = add_name(alloc, &mut reading.seen, &name) else {
        return Err(FileStop::Memory);
    };
    let Ok(()) = add_found(&mut reading.found, name, body) else {
        return Err(FileStop::Memory);
    };
    Ok(past)
}

/// Reads the modules of a file from the tokens of its text.
pub fn read_file(alloc: Global, text: &[u8], tokens: &[Token]) -> Result<FileModules, FileStop>
    requires { AreWithin text.now tokens.now }
    ensures { MatchResult result (IsFileRead tokens.now (lexemes text.now tokens.now)) (IsFileStop (lexemes text.now tokens.now)) }
{
    let source = Source::new(text, tokens);
    let count = source.len();
    let mut reading = Reading {
        seen: Seen::new(alloc),
        sorts: Sorts::new(alloc),
        found: FileModules {
            names: Many::new(alloc),
            imports: Many::new(alloc),
            sentences: Many::new(alloc),
        },
    };
    let mut at = 0;
    'modules: loop {
        match read_module(alloc, &source, tokens, at, &mut reading) {
            Ok(next) => at = next,
            Err(stop) => return Err(stop),
        }
        if at == count {
            return Ok(reading.found);
        }
    }
}
