//! Laws of sites and steps: a site fires with any births that are free, each step of ordinary rewriting has a site, and no rule
//! matches just where there is no site.
#![tactic(auto)]

pub mod laws;
