use k_terms::{Many, Text};

/// What a token of a configuration is to its cells.
#[derive(Debug, Drop, PartialEq, Eq)]
pub enum Sign {
    /// An opening tag. `many` says that the cell may occur more than once.
    Open { name: Text, many: bool },
    /// A closing tag.
    Close { name: Text },
    /// Any other.
    Other,
}

/// A cell of a configuration. Cells are numbered from 0 in the order of their opening tags, tokens in their own order.
#[derive(Debug, Drop, PartialEq, Eq)]
pub struct CellForm {
    pub name: Text,
    /// Whether it may occur more than once.
    pub many: bool,
    /// The number of its opening tag among the tokens.
    pub tag: usize,
    /// The number of the cell around it.
    pub parent: Option<usize>,
    /// The tokens of its content, from one up to another; `None` where it holds cells.
    pub content: Option<(usize, usize)>,
}

/// Where no configuration goes on.
#[derive(Debug, Drop, PartialEq, Eq)]
pub struct Stop {
    /// The number of the first token with which none goes on, or that of all tokens where more must follow.
    pub at: usize,
    /// The cells whose opening tags stand before, with their contents where those have ended there.
    pub cells: Many<CellForm>,
    /// The number of the innermost cell that is open there.
    pub inside: Option<usize>,
    /// Whether an opening tag could stand there.
    pub takes_cell: bool,
}

/// Why tokens are no configuration.
#[derive(Debug, Drop, PartialEq, Eq)]
pub enum FormFault {
    /// They are none.
    Stop(Stop),
    /// Memory was wanting.
    Memory,
}
