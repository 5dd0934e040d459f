//! Live configurations: cells by their numbers, the sites at which rules fire, and the places that a firing reads and
//! rewrites.
#![tactic(auto)]

mod cell;
mod conflicts;
pub mod laws;
mod live;
mod place;
mod site;

pub use cell::{Cell, CellNo, copy_cell, copy_content};
pub use conflicts::{conflict, overlap};
pub use live::{Live, equal_live};
pub use place::{End, Marks, Place};
pub use site::{Fired, Parts, Site};
