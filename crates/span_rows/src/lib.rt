//! What is said of spans of tokens, as rows of a table, and how a row comes from a token or from other rows.
#![tactic(auto)]

mod finishes;
mod going;
mod joins;
mod row;
mod rows;
mod sign;
mod slot;
mod steps;
mod tokens;

pub use finishes::finish_all;
pub use going::go_on_all;
pub use joins::{join, stands};
pub use row::{Class, Held, Key, Row};
pub use rows::{add, add_all};
pub use sign::{Sign, same_code};
pub use steps::{is_read, one_more};
pub use tokens::add_token;
