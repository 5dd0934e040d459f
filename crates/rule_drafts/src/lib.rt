//! The draft of a rule from the readings of its contents: the cells that are written on each side, and the variables.
#![tactic(auto)]

mod bodies;
mod cells;
mod contents;
mod draft;
mod events;
mod fault;
mod faults;
pub mod laws;
mod reading;
mod variables;

pub use draft::read_draft;
pub use fault::{DraftFault, Unbound};
pub use reading::{Condition, Reading, RuleReading};
