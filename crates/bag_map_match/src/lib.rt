//! What the rules of a definition bind at sites of a configuration.
#![tactic(auto)]

mod binding;
mod cells;
mod left;
mod spots;

pub use binding::binds;
pub use spots::{Spot, spots_of};
