//! How the text of a configuration is divided into cells, by its tags; or where no configuration goes on.
#![tactic(auto)]

mod form;
pub mod laws;
mod read;
mod stack;
mod state;

pub use form::{CellForm, FormFault, Sign, Stop};
pub use read::read_form;
