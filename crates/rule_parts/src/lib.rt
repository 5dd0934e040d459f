//! The parts of the contents of a rule's cells: what the readings of contents say, side by side, the variables that stand in
//! them, and the patterns that their terms stand for.
#![tactic(auto)]

mod argument_sorts;
mod collected;
mod declared_sorts;
mod leaves;
mod parts;
mod patterns;
mod sides;
mod terms;

pub use argument_sorts::Productions;
pub use collected::{
    entries_of, expressions_of, items_before, items_of, rests_of, steps_of, tokens_of,
};
pub use declared_sorts::productions;
pub use leaves::{Leaf, LeafKind, leaves_from, read_leaves};
pub use parts::{Part, Side, What, add_form};
pub use patterns::{front_parts, last_tail, number_of, pattern_of};
pub use sides::{add_variables, token_at, whole_sort};
pub use terms::{Occurrence, add_term};
