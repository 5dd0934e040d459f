use k_terms::Many;

/// A cell that a draft writes.
#[derive(Clone, Copy, Debug, PartialEq, Eq)]
pub struct Written {
    /// Its mark.
    pub mark: u32,
    /// Its declared cell.
    pub cell: u32,
    /// The mark of the written cell that encloses it. `None` where no other does.
    pub above: Option<u32>,
    /// Whether it stands on both sides.
    pub both: bool,
}

/// A cell of a completion, with the cells in it. A written cell has its mark, and an added one none.
#[derive(Debug, Drop, PartialEq, Eq)]
pub struct Tree {
    /// Its declared cell.
    pub cell: u32,
    /// The mark of a written cell.
    pub mark: Option<u32>,
    /// The cells that stand directly in it.
    pub inside: Many<Tree>,
}
