//! What the conditions and the right side of a rule are where its variables are bound.
#![tactic(auto)]

mod bodies;
mod building;
mod conditions;
mod entries;
mod evaluation;
pub mod laws;
mod sides;
mod variables;

pub use bodies::content;
pub use conditions::{all_met, is_met};
pub use evaluation::{evaluate, evaluate_all, evaluate_entries};
pub use sides::right_contents;
