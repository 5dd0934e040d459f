/// What a token is.
#[derive(Clone, Copy, Debug, PartialEq, Eq)]
pub enum Kind {
    /// A character that starts an identifier, or `_`, and then characters that continue one.
    Word,
    /// One or more of the digits 0 to 9.
    Int,
    /// Characters and escapes between two quotes `"`.
    Str,
    /// One printable ASCII character that is no letter, digit, underscore, quote or space.
    Mark,
}

/// A token of a text: its kind, the place of its first byte, and the place after its last.
#[derive(Clone, Copy, Debug, PartialEq, Eq)]
pub struct Token {
    /// What it is.
    pub kind: Kind,
    /// The place of its first byte.
    pub start: usize,
    /// The place after its last byte.
    pub end: usize,
}
