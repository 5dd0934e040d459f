//! The grammar of a definition from its sentences: sorts and productions by their numbers, and the first fault of those
//! that have no grammar.
#![tactic(auto)]

mod cycles;
mod declared;
mod fault;
pub mod laws;
mod leading;
mod nullable;
mod placing;
mod productions;
mod reaching;
mod reading;
mod subsorts;

pub use fault::{SortFault, What};
pub use grammar_terms::{Grammar, Part, Production, Readings, Shape, Word, WordKind};
pub use reading::read_grammar;
