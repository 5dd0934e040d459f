use crate::sentence::Sentence;
use k_terms::{Many, Text};

/// The modules of a file in the order of the text: of each its name, the names of those that it imports, and its other
/// sentences.
#[derive(Debug, Drop)]
pub struct FileModules {
    pub names: Many<Text>,
    pub imports: Many<Many<Text>>,
    pub sentences: Many<Many<Sentence>>,
}

/// Why no file was read.
#[derive(Debug, Drop, PartialEq, Eq)]
pub enum FileStop {
    /// No file can go on with the token of this number, counted from 0, or end there where it is the number of all tokens.
    Expected { at: usize },
    /// A module has the name of one before it.
    TwoModules { name: Text },
    /// Memory was wanting.
    Memory,
}
