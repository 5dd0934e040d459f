use k_terms::Many;

/// What stands among cells. Numbers are those of tokens, counted from 0.
#[derive(Debug, Drop)]
#[cycle(cells)]
pub enum Item {
    /// A cell.
    Cell(Cell),
    /// `( .. => .. )`, by its `(`.
    Change {
        start: usize,
        left: Many<Item>,
        right: Many<Item>,
    },
    /// `.Bag` or `.`, which stands for no cells.
    Nothing {
        at: usize,
    },
}

/// A cell: its declared cell, its opening tag, whether `...` stands at its left and at its right, and what stands
/// between.
#[derive(Debug, Drop)]
#[cycle(cells)]
pub struct Cell {
    pub cell: u32,
    pub start: usize,
    pub left_dots: bool,
    pub right_dots: bool,
    pub inside: Inside,
}

/// What a cell holds, or a rule's body is: cells, or a content, which is the tokens from one up to another.
#[derive(Debug, Drop)]
#[cycle(cells)]
pub enum Inside {
    Cells(Side),
    Content { first: usize, past: usize },
}

/// Cells, or cells that are rewritten to others.
#[derive(Debug, Drop)]
#[cycle(cells)]
pub enum Side {
    Same(Many<Item>),
    Change(Many<Item>, Many<Item>),
}

/// How the text of a rule is divided: its body, and the tokens of its condition, from one up to another.
#[derive(Debug, Drop)]
pub struct RuleForm {
    pub body: Inside,
    pub condition: Option<(usize, usize)>,
}

/// Why a text is not divided.
#[derive(Clone, Copy, Debug, PartialEq, Eq)]
pub enum FormFault {
    /// The body is none. This is the place of the first byte of the first token with which no cells can go on, or where
    /// a tag or a bracket is still open behind the body, the place behind its last byte.
    NoReading { at: usize },
    /// Memory was wanting.
    Memory,
}
