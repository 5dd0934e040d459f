//! The base tokens of the text of a definition or of a program: words, integers, strings and marks, with blanks and
//! comments around them.
//!
//! Blanks are space, tab, line feed and carriage return. A comment goes from `//` up to a line feed or the end, or from
//! `/*` to the next `*/`. At each place the longest token is taken, and none begins where a comment begins.
#![tactic(auto)]

mod fault;
mod front;
pub mod laws;
mod lexing;
mod token;
mod whole;

pub use fault::LexFault;
pub use lexing::{find_fault, tokens, tokens_before};
pub use token::{Kind, Token};
pub use whole::{is_mark, is_word};
