use k_terms::Content;

/// What a cell without cells declares.
#[derive(Debug, Drop)]
pub enum Declared {
    /// `$PGM:S`: the program, of this sort.
    Program { sort: u32 },
    /// `$IN:List`: the whole numbers of the input.
    Input,
    /// This content.
    Fixed(Content),
}
