//! The rule that a draft is completed to.
#![tactic(auto)]

mod complete;
mod filling;
mod finding;
mod numbering;
mod refusal;
mod rule;
mod side;
mod writing;

pub use complete::complete_rule;
pub use refusal::NoCompletion;
