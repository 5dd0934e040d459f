//! The builtin operators of the running language: the value of each at its arguments, by the table of operators.
#![tactic(auto)]

mod comparisons;
mod integers;
mod kinds;
mod maps;
mod operators;
mod texts;
mod truths;

pub use operators::{apply, apply_one, apply_three, apply_two};
