use k_terms::{Text, Value};

/// What a token of a configuration is.
#[derive(Debug, Drop, PartialEq, Eq)]
pub enum CellKind {
    /// `<name>`, with attributes or not; `many` where one of them is `multiplicity="*"`.
    Open { name: Text, many: bool },
    /// `</name>`.
    Close { name: Text },
    /// `$PGM:S`, with the number of the sort S.
    Program(u32),
    /// `$IN:List`.
    Input,
    /// `~>`.
    Then,
    /// `|->`.
    MapsTo,
    /// `.` alone, or `.K`, `.Map` or `.List` with the number of that sort.
    Dot(Option<u32>),
    /// `ListItem`.
    ListItem,
    /// `(`.
    LeftBracket,
    /// `)`.
    RightBracket,
    /// A terminal of the grammar.
    Terminal(Text),
    /// A literal, or an identifier by its symbol.
    Literal(Value),
    /// A mark that is none of these, or a number above the greatest.
    Bad,
}

/// A token of a configuration, and of how many base tokens it is made.
#[derive(Debug, Drop, PartialEq, Eq)]
pub struct CellToken {
    pub kind: CellKind,
    pub size: usize,
}
