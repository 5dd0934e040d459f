//! The declared configuration: its cells with what they declare, the configuration that a program begins with, and declared
//! cells as patterns.
#![tactic(auto)]

mod beginning;
mod declared;
mod patterns;
mod tree;

pub use beginning::initial;
pub use declared::Declared;
pub use patterns::{default_cell, defaults};
pub use tree::CellTree;
