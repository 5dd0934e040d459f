//! What the text of a configuration is.
use cell_trees::Declared;
use k_terms::{Many, Text};

/// A cell of a configuration. Cells are numbered from 0 in the order of their opening tags.
#[derive(Debug, Drop)]
pub struct ConfigCell {
    pub name: Text,
    /// The number of the cell around it.
    pub parent: Option<usize>,
    /// Whether it may occur more than once.
    pub many: bool,
    /// What it declares; `None` where it holds cells, and where its content hasn't ended or is none.
    pub held: Option<Declared>,
}

/// A place at which the text is none of a configuration.
#[derive(Debug, Drop)]
pub struct Place {
    /// The name of the innermost cell that is open there; empty where none is.
    pub inside: Text,
    /// The name of the cell whose opening tag is begun there.
    pub begun: Option<Text>,
}

/// The cells of a configuration, or those whose opening tags stand before the first place at which the text is none.
#[derive(Debug, Drop)]
pub struct Division {
    pub cells: Many<ConfigCell>,
    pub place: Option<Place>,
}
