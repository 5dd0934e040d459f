use k_terms::{Text, Value};

/// What kind of token a word of a program is, or of a content or condition of a rule.
#[derive(Debug, Drop, PartialEq, Eq)]
pub enum WordKind {
    /// A terminal of the grammar.
    Terminal(Text),
    /// A literal, or an identifier by its symbol.
    Literal(Value),
    /// A variable of a sort.
    Variable,
    /// A variable without a name and a sort.
    Wild,
    /// The empty list of a list sort, or the empty sequence.
    EmptyList,
}

/// A token of a program, or of a content or condition of a rule.
#[derive(Debug, Drop, PartialEq, Eq)]
pub struct Word {
    /// Its kind.
    pub kind: WordKind,
    /// The sort of a literal, an identifier or a variable; that of an empty list, and K of an empty sequence. Of a terminal the
    /// number of the places that ask for it, or 0 where there are none; else 0.
    pub sort: u32,
    /// The place of its first byte in the text.
    pub start: usize,
    /// The place behind its last byte.
    pub end: usize,
}
