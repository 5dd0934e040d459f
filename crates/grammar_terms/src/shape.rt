use k_terms::Many;

/// A reading of tokens, with brackets and subsort steps dropped. A `u32` is the number of a production, and 0 that of a
/// sequence.
#[derive(Debug, Drop, PartialEq, Eq)]
pub enum Shape {
    /// A literal, an identifier or a variable, by the place of its token among the tokens that were read, counted from 0.
    Leaf(usize),
    /// A production with the readings of its sort items.
    Node(u32, Many<Shape>),
    /// A list with its elements, and in a rule the place of the token of its rest, where it has one; or a sequence with its
    /// parts.
    Items(u32, Many<Shape>, Option<usize>),
}

/// What readings some tokens have.
#[derive(Debug, Drop, PartialEq, Eq)]
pub enum Readings {
    /// None.
    Zero,
    /// All readings have this shape.
    One(Shape),
    /// Two different readings; there may be more.
    Two(Shape, Shape),
}
