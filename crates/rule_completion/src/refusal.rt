/// Why a draft is completed to no rule.
#[derive(Clone, Copy, Debug, PartialEq, Eq)]
pub enum NoCompletion {
    /// A written cell of this declared cell, the first one of the text, is not declared in the cell that encloses it; or it
    /// is on one side alone, and neither repeated nor within a cell that is on one side alone.
    Misplaced { cell: u32 },
    /// There is no least completion.
    Unclear,
    /// The rule matches so many cells, which is more than a rule may.
    PatternCells { n: u32 },
    /// The rule makes so many cells, which is more than a rule may.
    NewCells { n: u32 },
    /// Memory was wanting.
    Memory,
}
