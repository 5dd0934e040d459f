//! All readings of the tokens of a program, or of a content or a condition of a rule, found by a table over spans of
//! tokens.
#![tactic(auto)]

mod codes;
mod passes;
mod readings;
mod table;

pub use readings::all_readings;
