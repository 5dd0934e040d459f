//! Laws of the definitions that contracts cite. The contract of each function is the law.
ghost use Rattle.rule_tokens.specs.Laws.{HasOneRuleSplit, HasRuleSymbols, HasWholeTokens, HasOneSorts, HasSortsOrFault, HasOneVariableFault};

/// For given names base tokens are split in one way.
pub fn one_rule_split()
    ensures { HasOneRuleSplit }
{}

/// Each identifier and each named variable has the number of its word.
pub fn rule_symbols()
    ensures { HasRuleSymbols }
{}

/// The tokens of a text, or a run of them, are what a rule is split from: they stand in it, and are the longest at
/// their
/// places.
pub fn whole_tokens()
    ensures { HasWholeTokens }
{}

/// The named variables have sorts in one way.
pub fn one_sorts()
    ensures { HasOneSorts }
{}

/// Where they have sorts they have no fault but want of memory.
pub fn sorts_or_fault()
    ensures { HasSortsOrFault }
{}

/// They have one fault, beside want of memory.
pub fn one_variable_fault()
    ensures { HasOneVariableFault }
{}
