//! The syntax that the text of a definition declares: its sentences, its grammar, and its words by their numbers.
#![tactic(auto)]

mod fault;
mod sentences;
mod syntax;

pub use fault::SyntaxFault;
pub use syntax::{Definition, read_definition};
