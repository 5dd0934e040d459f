//! Laws of completed rules: a sound draft that fits its declared cells is completed to a sound rule.
#![tactic(auto)]

pub mod laws;
