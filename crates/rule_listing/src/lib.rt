//! The rules of a definition as they are listed: each with its number, and the cells on its left side or the place of a production
//! that it heats or cools.
#![tactic(auto)]

mod lines;

pub use lines::rule_lines;
