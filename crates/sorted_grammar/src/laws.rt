//! Laws of the definitions that contracts cite. The contract of each function is the law.
ghost use Rattle.sorted_grammar.specs.Laws.{HaveOneGrammar, HaveOneFault, HaveNotBoth, AreNumbered, StandFirst, HaveNames};

/// Sentences have at most one grammar.
pub fn one_grammar()
    ensures { HaveOneGrammar }
{}

/// Sentences have at most one fault.
pub fn one_fault()
    ensures { HaveOneFault }
{}

/// No sentences have a grammar and a fault.
pub fn not_both()
    ensures { HaveNotBoth }
{}

/// Each built-in sort stands at its number.
pub fn are_numbered()
    ensures { AreNumbered }
{}

/// The built-in sorts stand in front of the declared ones.
pub fn stand_first()
    ensures { StandFirst }
{}

/// The sorts of a grammar's productions and of their items have names.
pub fn have_names()
    ensures { HaveNames }
{}
