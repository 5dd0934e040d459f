use k_terms::{CellList, Many, Value};

/// What of a cell a place is: the cell with all below it, one key of its map, that the cell is there, or, with the empty
/// path, whether a number is in use.
#[derive(Debug, Drop, PartialEq, Eq)]
pub enum End {
    Whole,
    Key(Value),
    Here,
    Number(u32),
}

/// A place: the numbers of the cells from the root to a cell, and what of it is meant.
#[derive(Debug, Drop, PartialEq, Eq)]
pub struct Place {
    pub path: CellList,
    pub end: End,
}

/// What a firing reads and what it rewrites.
#[derive(Debug, Drop, PartialEq, Eq)]
pub struct Marks {
    pub reads: Many<Place>,
    pub writes: Many<Place>,
}
