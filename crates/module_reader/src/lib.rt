//! The modules of a definition's file, put together: the sentences of the definition are those of the import closure of
//! the file's last module.
#![tactic(auto)]

mod copies;
mod fault;
mod imports;
pub mod laws;
mod modules;
mod names;
mod reading;

pub use copies::{copy_attrs, copy_form};
pub use fault::ModuleFault;
pub use file_reader::Sentence;
pub use modules::Modules;
pub use production_reader::{Attrs, Form, Item, Prod, Strict};
pub use reading::read_modules;
