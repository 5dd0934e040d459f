//! The printed form of values and of configurations.
#![tactic(auto)]

mod configurations;
pub mod laws;
mod pieces;
mod values;
mod words;

pub use configurations::configuration_text;
pub use values::{print_content, print_value, value_text};
pub use words::Words;
