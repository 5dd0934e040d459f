//! Laws of drafts: whole sequences and rests stand where they may.
#![tactic(auto)]

pub mod laws;
