//! What was read of a rule's text. Tokens are told by their places among the tokens of the text, counted from 0.
use grammar_terms::Shape;
use k_terms::Many;
use rule_cells::Inside;
use rule_contents::Form;

/// The opening tag of a cell and the `...` beside what it contains.
#[derive(Clone, Copy, Debug)]
pub(crate) struct Tag {
    /// The declared cell.
    pub(crate) cell: u32,
    /// The token of the opening tag.
    pub(crate) start: usize,
    pub(crate) left_dots: bool,
    pub(crate) right_dots: bool,
}

/// The reading of a content, by its first token behind a `...`. The places of leaves in its shape count from that token.
#[derive(Debug, Drop)]
pub struct Reading {
    pub first: usize,
    pub form: Form,
    pub shape: Shape,
    /// The first token of the first term of an operator on its left side, if there is one: counted as `first` is, among
    /// all tokens of the rule.
    pub operator: Option<usize>,
}

/// The reading of a condition. The places of leaves in its shape count from its first token.
#[derive(Debug, Drop)]
pub struct Condition {
    pub first: usize,
    pub shape: Shape,
}

/// What was read of a rule: where its word `rule` stands, its body, each content, and the condition.
#[derive(Debug, Drop)]
pub struct RuleReading {
    pub at: usize,
    pub body: Inside,
    pub contents: Many<Reading>,
    pub condition: Option<Condition>,
}
