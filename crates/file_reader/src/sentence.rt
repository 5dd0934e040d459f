use k_terms::{Many, Text};
use production_reader::Prod;

/// A sentence of a module that is no import.
#[derive(Debug, Drop, PartialEq, Eq)]
pub enum Sentence {
    /// Productions of a sort, by groups of falling priority; none where the sort is only declared.
    Syntax {
        /// The sort.
        sort: Text,
        /// Its productions.
        groups: Many<Many<Prod>>,
    },
    /// The text of a configuration, by its tokens, counted from 0 in the file: the first, and the one past the last.
    Config {
        /// The number of the first token.
        first: usize,
        /// The number past that of the last token.
        past: usize,
    },
    /// The text of a rule, by its tokens; a last `[structural]` is none of them.
    Rule {
        /// The place of the first byte of the word `rule`.
        at: usize,
        /// The number of the first token.
        first: usize,
        /// The number past that of the last token.
        past: usize,
    },
}
