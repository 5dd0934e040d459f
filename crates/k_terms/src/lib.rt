//! Terms of the running language: values, their total order, their sorts, and the builtin operators' names.
#![tactic(auto)]

mod cell_list;
mod copies;
mod depths;
pub mod laws;
mod many;
mod memory;
mod names;
mod op;
mod order;
mod sorts;
mod value;

pub use cell_list::CellList;
pub use copies::{copy, copy_pairs, copy_text, copy_values};
pub use depths::depth;
pub use many::Many;
pub use memory::Memory;
pub use names::Names;
pub use op::Op;
pub use order::{cmp, equal};
pub use sorts::{Sorts, sort};
pub use value::{Content, Pairs, Symbol, Text, Value, Values};

/// A list of numbers.
pub type Numbers = Many<u64>;
