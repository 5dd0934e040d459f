use crate::pattern::{CellPat, Pattern};
use k_terms::Many;

/// A condition of a rule: an expression that is to be true, or whether the least sort of a variable's value is below a
/// sort, or is not.
#[derive(Debug, Drop, PartialEq, Eq)]
pub enum Cond {
    Holds(Pattern),
    IsSort(u32, u32),
    NotSort(u32, u32),
}

/// Where a rule comes from: the byte of its word `rule` in the definition, or the heating or cooling of an argument of a
/// production, counted from 1.
#[derive(Clone, Copy, Debug, PartialEq, Eq)]
pub enum Origin {
    Written { at: usize },
    Heat { prod: u32, place: u32 },
    Cool { prod: u32, place: u32 },
}

/// A rule. `vars` gives each variable's sort. A left and a right cell with one mark are one cell; a left cell whose mark
/// is not on the right is removed, and a right cell whose mark is not on the left is new.
#[derive(Debug, Drop, PartialEq, Eq)]
pub struct Rule {
    pub origin: Origin,
    pub vars: Many<u32>,
    pub left: CellPat,
    pub right: CellPat,
    pub when: Many<Cond>,
}

/// A rule as it is written, with the cells that it names alone: a forest for each side.
#[derive(Debug, Drop, PartialEq, Eq)]
pub struct Draft {
    pub origin: Origin,
    pub vars: Many<u32>,
    pub left: Many<CellPat>,
    pub right: Many<CellPat>,
    pub when: Many<Cond>,
}
