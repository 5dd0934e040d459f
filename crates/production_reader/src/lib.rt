//! The productions of a syntax sentence: what they are as data, and how they are read from the tokens of a definition.
#![tactic(auto)]

mod attributes;
mod groups;
mod items;
mod lists;
mod numbers;
mod prefixes;
mod prod;
mod production;
mod signs;
mod source;
mod stop;
mod strings;

pub use groups::read_groups;
pub use prod::{Attrs, Form, Item, Prod, Strict};
pub use source::{Lexeme, Source};
pub use stop::Stop;
