//! The grammar of a definition's programs and rules: its sorts and productions, which child may stand at which place,
//! what a reading of tokens is, and what its value is.
#![tactic(auto)]

mod builtin;
mod copies;
mod edges;
mod grammar;
mod labels;
pub mod laws;
mod places;
mod production;
mod rule_grammar;
mod shape;
mod sort_steps;
mod tokens;
mod word;

pub use copies::{copy_attrs, copy_part};
pub use grammar::Grammar;
pub use places::{
    CLOSE_PLACE, DOT_PLACE, EMPTY_PLACE, OPEN_PLACE, REWRITE_PLACE, VARIABLE_PLACE, WILD_PLACE,
    token_place_at,
};
pub use production::{Part, Production};
pub use rule_grammar::{next_group, next_sentence};
pub use shape::{Readings, Shape};
pub use sort_steps::{lone_sort, step_from};
pub use tokens::{is_empty, is_empty_at, is_leaf, is_terminal_at, is_variable_at, is_wild_at};
pub use word::{Word, WordKind};
