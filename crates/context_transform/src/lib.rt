//! The definition that a text is, whole: its grammar, its declared cells, and its rules with the cells that they leave out.
#![tactic(auto)]

mod assembling;
mod completion;
mod defining;
mod fault;
mod laws;
mod rules;
mod sentences;
mod told;

pub use assembling::{Definition, assemble};
pub use completion::complete;
pub use fault::{CellsUnclear, DefFault};
pub use laws::{one_reason, one_rule, rule_or_reason};
