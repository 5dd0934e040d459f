//! Heating and cooling: the rules that strict productions stand for.
#![tactic(auto)]

mod drafts;
mod fault;
pub mod laws;
mod places;
mod rules;

pub use fault::StrictFault;
pub use rules::heat_cool;
