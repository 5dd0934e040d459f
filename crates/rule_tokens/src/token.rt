use k_terms::{Symbol, Text, Value};

/// What a token of a rule is.
#[derive(Debug, Drop, PartialEq, Eq)]
pub enum RuleKind {
    /// `<name>` of a declared cell, by the cell's number.
    Open(u32),
    /// `</name>` of a declared cell, by the cell's number.
    Close(u32),
    /// `=>`.
    Rewrite,
    /// `~>`.
    Then,
    /// `|->`.
    MapsTo,
    /// `...`.
    Dots,
    /// `.` alone, or `.S` with the number of the sort S.
    Dot(Option<u32>),
    /// `ListItem`.
    ListItem,
    /// A terminal of the grammar.
    Terminal(Text),
    /// A literal, or an identifier by its symbol.
    Literal(Value),
    /// A variable with the symbol of its word, where that is not `_`, and with the number of its sort, where that is
    /// written.
    Variable {
        name: Option<Symbol>,
        sort: Option<u32>,
    },
}

/// A token of a rule.
#[derive(Debug, Drop, PartialEq, Eq)]
pub struct RuleToken {
    /// What it is.
    pub kind: RuleKind,
    /// The place of its first byte in the text.
    pub start: usize,
    /// The place behind its last byte.
    pub end: usize,
}

/// What a token is that stands at a place, and of how many base tokens it is made.
#[derive(Debug, Drop)]
pub(crate) struct Found {
    pub(crate) kind: RuleKind,
    pub(crate) size: usize,
}
