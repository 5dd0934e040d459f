//! The outside of the program: files that are read by their names, and a place that text is written to.
//!
//! `Shelf` and `Sink` say what a reader by name and a writer owe to the code above them. The other
//! types are fakes: `MemShelf` and `MemSink` keep bytes in memory and fail at the calls that they are
//! told to, `SureShelf` and `SureSink` never fail.
#![tactic(auto)]

mod fault_plan;
mod files;
mod mem_shelf;
mod mem_sink;
mod shelf;
mod sink;
mod sure_shelf;
mod sure_sink;

pub use mem_shelf::MemShelf;
pub use mem_sink::MemSink;
pub use shelf::{Failed, Shelf};
pub use sink::Sink;
pub use sure_shelf::SureShelf;
pub use sure_sink::SureSink;
