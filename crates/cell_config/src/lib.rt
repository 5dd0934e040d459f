//! The configurations of a definition: its declared cells as a tree, or why there are none.
#![tactic(auto)]

mod contents;
mod divide;
mod division;
pub mod laws;
mod places;
mod read;
mod refusal;
mod refusals;
mod signs;
mod tree;

pub use read::read_cells;
pub use refusal::CellRefusal;
