//! Reading of programs: the tokens of a text, the one reading that they have at a sort, and its value.
#![tactic(auto)]

pub mod laws;
mod reading;
mod refusal;
mod texts;
mod values;

pub use reading::read_words;
pub use refusal::ReadRefusal;
pub use texts::read_text;
pub use values::value;
