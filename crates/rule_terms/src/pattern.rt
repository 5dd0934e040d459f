use k_terms::{Many, Op, Value};

/// A term with variables. The number in `Var`, and in each `Option<u32>`, is a variable by its place in the rule's
/// `vars`, counted from 0; an `Option<u32>` is the variable of the rest, and `None` says that there is no rest. The
/// numbers in `Node`, `Items` and `Freezer` are those of a `Value`.
#[derive(Debug, Drop, PartialEq, Eq)]
pub enum Pattern {
    Var(u32),
    Lit(Value),
    Node(u32, Many<Pattern>),
    Items(u32, Many<Pattern>, Option<u32>),
    Seq(Many<Pattern>, Option<u32>),
    Freezer(u32, u32, Many<Pattern>),
    Apply(Op, Many<Pattern>),
}

/// What a cell of a rule contains. `List` has the items before the rest, the rest, and the items after it. `Made`
/// stands on a right side alone and gives the whole content by an expression.
#[derive(Debug, Drop, PartialEq, Eq)]
#[cycle(cells)]
pub enum Body {
    Cells(Many<CellPat>, Option<u32>),
    Seq(Many<Pattern>, Option<u32>),
    Map(Many<(Pattern, Pattern)>, Option<u32>),
    List(Many<Pattern>, Option<u32>, Many<Pattern>),
    One(Pattern),
    Made(Pattern),
}

/// A cell of a rule's side: a declared cell by its number, and a mark that it shares with the cell of the other side
/// that is the same cell.
#[derive(Debug, Drop, PartialEq, Eq)]
#[cycle(cells)]
pub struct CellPat {
    pub cell: u32,
    pub mark: u32,
    pub body: Body,
}
