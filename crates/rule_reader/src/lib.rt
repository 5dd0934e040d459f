//! The text of a rule: the draft that it is, or why it is none.
#![tactic(auto)]

mod contents;
mod grammar;
pub mod laws;
mod places;
mod readings;
mod refusal;
mod rule;
mod told;

pub use grammar::RuleGrammar;
pub use refusal::{RuleFault, RuleRefusal};
pub use rule::read_rule;
