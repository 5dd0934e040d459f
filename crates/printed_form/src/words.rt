ghost use Rattle.std.specs.Prelude.{◌≡◌};
ghost use Rattle.printed_form.specs.Words.{label_of, text_at, word_of, words_of};

use k_terms::{Symbol, Text};

/// The words that values are printed with: the label of each production, from production 1, where that of a list
/// production is its sort, and the word of each symbol, from symbol 0. What has no word here prints as nothing.
#[derive(Clone, Copy)]
pub struct Words<'a> {
    pub labels: &'a [Text],
    pub symbols: &'a [Text],
}

/// The label of a production, and nothing where there is no such production.
pub(crate) fn label<'a>(words: &Words<'a>, prod: u32) -> &'a [u8]
    ensures { result.now ≡ label_of (words_of words.now) prod }
{
    match prod.checked_sub(1) {
        Some(index) => text_or_nothing(words.labels, index),
        None => b"",
    }
}

/// The word of a symbol, and nothing where it has none.
pub(crate) fn word<'a>(words: &Words<'a>, symbol: Symbol) -> &'a [u8]
    ensures { result.now ≡ word_of (words_of words.now) symbol.0 }
{
    text_or_nothing(words.symbols, symbol.0)
}

/// A text by its place, and nothing where there is none.
pub(crate) fn text_or_nothing(texts: &[Text], index: u32) -> &[u8]
    ensures { result.now ≡ text_at texts.now index }
{
    match texts.get(index as usize) {
        Some(text) => text.as_slice(),
        None => b"",
    }
}
