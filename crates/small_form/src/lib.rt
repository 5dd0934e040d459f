//! Definitions of the small form: one module with one sort, one syntax sentence of prefix productions, the one cell `k`
//! and rules without conditions.
#![tactic(auto)]

mod defined;
mod definition;
mod names;
mod program;
mod reader;
mod rule;
mod small;
mod term;

pub use defined::language;
pub use definition::read_definition;
pub use program::read_program;
pub use small::{Production, Small, SmallRule};
