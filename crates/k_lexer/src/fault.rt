use thiserror::Error;

/// Why a text has no tokens, with the place of the byte where that shows.
#[derive(Clone, Copy, Debug, PartialEq, Eq, Error)]
pub enum LexFault {
    /// Here no token, blank or comment begins, or the bytes are no UTF-8.
    #[error("no token begins at byte {at}")]
    BadByte { at: usize },
    /// The string that begins here does not end, or has something in it that may not stand in a string.
    #[error("the string at byte {at} has no end")]
    OpenString { at: usize },
    /// The comment that begins here does not end.
    #[error("the comment at byte {at} has no end")]
    OpenComment { at: usize },
    /// Memory was wanting.
    #[error("memory was wanting")]
    Memory,
}
