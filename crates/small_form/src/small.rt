use k_terms::{Many, Text};
use rule_terms::Pattern;

/// A prefix production: its label, and how many arguments it has, each of the one sort.
#[derive(Debug, Drop)]
pub struct Production {
    pub label: Text,
    pub arity: usize,
}

/// A rule: the byte of its word `rule`, the names of its variables by their numbers, and its two sides.
#[derive(Debug, Drop)]
pub struct SmallRule {
    pub at: usize,
    pub names: Many<Text>,
    pub left: Pattern,
    pub right: Pattern,
}

/// A definition of the small form, as it is written.
#[derive(Debug, Drop)]
pub struct Small {
    pub name: Text,
    pub sort: Text,
    pub productions: Many<Production>,
    pub rules: Many<SmallRule>,
}
