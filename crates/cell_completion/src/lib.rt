//! The least completion of the cells that a draft writes: the whole tree of cells under the root.
#![tactic(auto)]

mod building;
mod complete;
mod completing;
pub mod laws;
mod misplaced;
mod tree;

pub use building::first_mark;
pub use complete::{CompletionFault, complete_cells};
pub use tree::{Tree, Written};
