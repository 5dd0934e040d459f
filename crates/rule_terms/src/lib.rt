//! Rules of a definition, and what it means to rewrite with them by plain substitution.
#![tactic(auto)]

mod copying;
mod counts;
mod defs;
mod equality;
pub mod laws;
mod pattern;
mod plain;
mod rule;

pub use copying::{copy_body, copy_cell, copy_conditions, copy_rule};
pub use counts::{left_cells, new_cells};
pub use defs::{CellShape, Defs, Kind};
pub use equality::{equal_defs, equal_rule};
pub use pattern::{Body, CellPat, Pattern};
pub use plain::Plain;
pub use rule::{Cond, Draft, Origin, Rule};
