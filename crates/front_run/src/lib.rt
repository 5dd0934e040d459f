//! Runs of rules at the front of the one cell `k`.
#![tactic(auto)]

mod bind;
mod build;
pub mod laws;
mod rewrite;
mod runs;

pub use runs::{Ending, Run, run_program};
