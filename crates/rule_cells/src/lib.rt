//! How the text of a rule is divided: its condition, and the cells of its body with their contents as ranges of tokens.
#![tactic(auto)]

mod dots;
mod form;
pub mod laws;
mod level;
mod mark;
mod read;
mod stack;
mod state;

pub use form::{Cell, FormFault, Inside, Item, RuleForm, Side};
pub use read::read_form;
