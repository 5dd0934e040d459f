//! Laws of the patterns of drafts: their values are well formed, and the numbers in them are those of productions.
#![tactic(auto)]

pub mod laws;
