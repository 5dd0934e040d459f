//! The answer for the text of a program, as text: the printed form of its value, or the line of its refusal.
#![tactic(auto)]

mod answer;
mod lines;
mod symbols;

pub use answer::{Answer, Told, answer_text};
