//! The contents and the condition of a rule: the grammar that a content is read by, the words of its tokens, and the one
//! reading that they have.
#![tactic(auto)]

mod contents;
mod grammar;
pub mod laws;
mod marks;
mod numbers;
mod operators;
mod reading;
mod sides;
mod words;

pub use grammar::{ContentGrammar, content_grammar};
pub use operators::operator_place;
pub use reading::{ContentFault, Form, read_condition, read_content};
pub use words::words_of;
