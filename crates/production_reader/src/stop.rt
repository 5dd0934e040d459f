/// Why a reader goes no further.
#[derive(Clone, Copy, Debug, PartialEq, Eq)]
pub enum Stop {
    /// No file can go on with the token of this number, counted from 0, or end there where it is the number of all tokens.
    Expected { at: usize },
    /// Memory was wanting.
    Memory,
}
