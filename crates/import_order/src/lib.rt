//! The order in which modules that import one another stand, and the cycles among them.
//!
//! A module is a number from 0. The graph has for each module the list of those that it imports, in the order of the
//! text.
#![tactic(auto)]

mod cycle;
pub mod laws;
mod orders;
mod walk;

pub use cycle::first_on_cycle;
pub use orders::{closure, order};
