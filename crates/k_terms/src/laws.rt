//! Laws of the definitions that contracts cite. Each function does nothing: its contract is the law.
ghost use Rattle.k_terms.specs.Laws.{OrderIsTotal, OnlyEqualValuesTie, EqualValuesTie, SortNumbersAgree};

/// The order of values is total.
pub fn order_is_total()
    ensures { OrderIsTotal }
{}

/// Two values that the order does not tell apart are equal.
pub fn only_equal_values_tie()
    ensures { OnlyEqualValuesTie }
{}

/// The order does not tell a value from itself.
pub fn equal_values_tie()
    ensures { EqualValuesTie }
{}

/// The constants of the module `sort` are the numbers of the built-in sorts.
pub fn sort_numbers_agree()
    ensures { SortNumbersAgree }
{}
