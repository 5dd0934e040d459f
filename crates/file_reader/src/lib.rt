//! The modules of a definition's file, read from its tokens: their names, what they import, and their sentences.
#![tactic(auto)]

mod bodies;
mod file;
mod headers;
mod names;
mod passages;
mod read;
mod reading;
mod seen;
mod sentence;
mod sentences;
mod sorts;
mod words;

pub use file::{FileModules, FileStop};
pub use reading::read_file;
pub use sentence::Sentence;
