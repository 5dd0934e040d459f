//! Laws of the definitions that contracts cite. The contract of each function is the law.
ghost use Rattle.grammar_terms.specs.Laws.{CutsAgain, CutsUnions, CutsItems, CutsShapes, ValuesTell, OperatorsStand, FreeStand};

/// What is kept of what is kept tells of the set.
pub fn cuts_again()
    ensures { CutsAgain }
{}

/// What is kept of two sets tells of their union.
pub fn cuts_unions()
    ensures { CutsUnions }
{}

/// What is kept for the items of a production tells of the lists of one shape for each.
pub fn cuts_items()
    ensures { CutsItems }
{}

/// What is kept for all items of a production tells of its shapes.
pub fn cuts_shapes()
    ensures { CutsShapes }
{}

/// Two readings of a program's tokens that have one value have one shape.
pub fn values_tell()
    ensures { ValuesTell }
{}

/// The production that is an operator, by its number, is written as the operator is.
pub fn operators_stand()
    ensures { OperatorsStand }
{}

/// A builtin production of no group, as parentheses are, is kept out nowhere, and keeps nothing out.
pub fn free_stand()
    ensures { FreeStand }
{}
