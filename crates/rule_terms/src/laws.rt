//! Laws of the definitions that contracts cite. Each function does nothing: its contract is the law.
ghost use Rattle.rule_terms.specs.Laws.{ContentsAreOfKind, BoundValuesAreFormed, SidesAreTheRoot, VariablesAreBound};

/// What a right cell of a sound rule builds is of the cell's declared kind.
pub fn contents_are_of_kind()
    ensures { ContentsAreOfKind }
{}

/// The values that a sound rule's variables stand for at a match are well formed.
pub fn bound_values_are_formed()
    ensures { BoundValuesAreFormed }
{}

/// Both sides of a rule of a sound definition are the root, with one mark.
pub fn sides_are_the_root()
    ensures { SidesAreTheRoot }
{}

/// Each variable that stands on the right side of such a rule, or in one of its conditions, stands on the left.
pub fn variables_are_bound()
    ensures { VariablesAreBound }
{}
