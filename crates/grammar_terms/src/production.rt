use k_terms::{Many, Text};
use production_reader::{Attrs, Form};

/// An item of a production.
#[derive(Debug, Drop, PartialEq, Eq)]
pub enum Part {
    /// What stands in a program's text as it is here.
    Terminal(Text),
    /// A reading of the sort of this number.
    Sort(u32),
}

/// A production of a sort. Productions are numbered from 1.
#[derive(Debug, Drop, PartialEq, Eq)]
pub struct Production {
    /// The number of the sort that it is a production of.
    pub sort: u32,
    /// The place of its sentence among the sentences of the definition, counted from 0.
    pub sentence: u32,
    /// The place of its group among the groups of all sentences, counted from 0.
    pub group: u32,
    /// Its items in order. A list production has the sort of its elements.
    pub items: Many<Part>,
    /// Its attributes.
    pub attrs: Attrs,
    /// How it is written.
    pub form: Form,
}
