//! Laws of sites: each match of ordinary rewriting has a site at which its rule binds, and a site determines its rule and
//! what the variables stand for.
#![tactic(auto)]

pub mod laws;
