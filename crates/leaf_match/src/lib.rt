//! Contents of cells, and the patterns of a rule that stand for them: what the variables of a rule stand for.
#![tactic(auto)]

mod bindings;
mod bodies;
mod bound;
mod entries;
mod maps;
mod patterns;
mod values;
mod variables;

pub use bindings::{Bindings, bind_leaf};
pub use bound::{Bound, value_of};
pub use variables::Variables;
