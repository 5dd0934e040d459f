//! The laws of the rules of a definition: each is sound.
#![tactic(auto)]

pub mod laws;
