//! The tokens of a content as words.
ghost use Rattle.std.specs.Prelude.{◌≡◌, IfOk};
ghost use Rattle.cell_contents.specs.Marks.{terminal as terminal_word};
ghost use Rattle.cell_contents.specs.Words.{literal_sort as sort_of_literal, word_of as one_word, words_of as all_words};

use cell_tokens::{CellKind, CellToken};
use grammar_terms::{Word, WordKind};
use k_terms::{Many, Memory, Text, Value, copy, sort};
use std::alloc::Global;

fn terminal(alloc: Global, text: &[u8]) -> Result<Word, Memory>
    ensures { IfOk result (λ word. word ≡ terminal_word text.now) }
{
    Ok(Word {
        kind: WordKind::Terminal(Text::from_vec(Vec::from_slice(alloc, text)?)),
        sort: 0,
        start: 0,
        end: 0,
    })
}

/// The sort of a literal or an identifier.
fn literal_sort(value: &Value) -> u32
    ensures { result ≡ sort_of_literal value.now }
{
    match value {
        Value::Int(_) => sort::INT,
        Value::Bool(_) => sort::BOOL,
        Value::Str(_) => sort::STRING,
        Value::Id(_) => sort::ID,
        Value::Seq(_) => sort::K,
        _ => sort::KITEM,
    }
}

/// The word of a token. The marks of a content are terminals, which its items have only where the grammar has them.
fn word_of(alloc: Global, kind: &CellKind) -> Result<Word, Memory>
    ensures { IfOk result (λ word. word ≡ one_word kind.now) }
{
    match kind {
        CellKind::Then => terminal(alloc, b"~>".as_slice()),
        CellKind::MapsTo => terminal(alloc, b"|->".as_slice()),
        CellKind::ListItem => terminal(alloc, b"ListItem".as_slice()),
        CellKind::LeftBracket => terminal(alloc, b"(".as_slice()),
        CellKind::RightBracket => terminal(alloc, b")".as_slice()),
        CellKind::Terminal(text) => terminal(alloc, text.as_slice()),
        CellKind::Literal(value) => Ok(Word {
            kind: WordKind::Literal(copy(alloc, value)?),
            sort: literal_sort(value),
            start: 0,
            end: 0,
        }),
        _ => terminal(alloc, b"".as_slice()),
    }
}

/// The words of tokens.
pub(crate) fn words_of(alloc: Global, tokens: &[CellToken]) -> Result<Many<Word>, Memory>
    ensures { IfOk result (λ words. words ≡ all_words tokens.now) }
{
    let mut words = Many::new(alloc);
    for token in tokens {
        words.push(word_of(alloc, &token.kind)?)?;
    }
    Ok(words)
}
