//! The text of a program as words of a grammar: terminals, literals and identifiers.
//!
//! A word that is a terminal is that; `true` and `false` are truths, and any other word is an identifier. Adjacent marks make
//! the longest terminal. What is bad, or too great a number, is told by its place.
#![tactic(auto)]

mod base;
pub mod laws;
mod literals;
mod split;
mod terminals;
mod words;

pub use base::number_tokens;
pub use split::{Split, split_text};
