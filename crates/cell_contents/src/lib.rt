//! What the content of a cell of a configuration declares: the program, the input, or what is written.
#![tactic(auto)]

mod alone;
mod chosen;
mod fault;
mod found;
pub mod laws;
mod maps;
mod marks;
mod read;
mod table;
mod tails;
mod ways;
mod words;

pub use fault::ContentFault;
pub use read::read_content;
pub use ways::Way;
