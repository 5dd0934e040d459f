//! Reads a whole file from a shelf, and writes a whole text to a sink.
#![tactic(auto)]

mod read;
mod write;

pub use read::{Unread, read_file};
pub use write::write_all;
