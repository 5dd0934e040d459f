//! The text of a configuration as tokens: tags with their attributes, marks, and the tokens of programs.
//!
//! A token is made of whole base tokens. At each place the longest token is taken that can stand there, and a terminal of the
//! grammar where it is as long as another.
#![tactic(auto)]

mod first;
mod forms;
pub mod laws;
mod literals;
mod signs;
mod split;
mod tags;
mod terminals;
mod token;
mod words;

pub use split::{split_cells, split_cells_by};
pub use terminals::Terminals;
pub use token::{CellKind, CellToken};
