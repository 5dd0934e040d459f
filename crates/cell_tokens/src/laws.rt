//! Laws of the definitions that contracts cite. The contract of each function is the law.
ghost use Rattle.cell_tokens.specs.Laws.{HasOneCellSplit, HasWholeTokens};

/// For given names base tokens are split in one way.
pub fn one_cell_split()
    ensures { HasOneCellSplit }
{}

/// The tokens of a text, or a run of them, are what a configuration is split from: they stand in it, and are the longest at
/// their places.
pub fn whole_tokens()
    ensures { HasWholeTokens }
{}
