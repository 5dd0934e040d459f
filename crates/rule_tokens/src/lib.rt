//! The text of a rule as tokens, and the sorts of its variables.
//!
//! A token of a rule is made of whole base tokens that stand directly behind one another. At each place the longest
//! token is
//! taken that can stand there, and a terminal of the grammar where it is as long as another.
#![tactic(auto)]

mod first;
mod forms;
pub mod laws;
mod literals;
mod signs;
mod sorts;
mod split;
mod table;
mod terminals;
mod token;
mod words;

pub use sorts::{VariableFault, variable_sorts};
pub use split::{RuleSplit, split_rule, split_rule_by};
pub use terminals::Terminals;
pub use token::{RuleKind, RuleToken};
