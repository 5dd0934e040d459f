//! Laws of drafts: those that rules are read to, and those of heating and cooling, may be completed over declared cells.
#![tactic(auto)]

pub mod laws;
