//! Laws of drafts that are completed: they are sound, and fit their declared cells.
#![tactic(auto)]

pub mod laws;
