use crate::dots::Dots;
use crate::form::Item;
use k_terms::Many;

/// What is open around the items that are read: the body itself, a bracket, a cell of cells, or a cell with a content,
/// which so far is the tokens from one up to another.
#[derive(Clone, Copy, Debug, PartialEq, Eq)]
pub(crate) enum Opening {
    Body,
    Bracket {
        start: usize,
    },
    Cells {
        cell: u32,
        start: usize,
        dots: Dots,
    },
    Content {
        cell: u32,
        start: usize,
        dots: Dots,
        first: usize,
        past: usize,
    },
}

/// What was read behind an opening: the items before `=>`, where that was read, and those behind it, or all.
#[derive(Debug, Drop)]
pub(crate) struct Level {
    pub(crate) opening: Opening,
    pub(crate) before: Option<Many<Item>>,
    pub(crate) items: Many<Item>,
}
