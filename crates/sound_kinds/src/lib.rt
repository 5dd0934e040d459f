//! Laws of the contents of drafts: each is of the kind of its declared cell.
#![tactic(auto)]

pub mod laws;
