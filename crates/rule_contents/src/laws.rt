//! Laws of the definitions that contracts cite. The contract of each function is the law.
ghost use Rattle.rule_contents.specs.Laws.{HasOneContent, HasNotBoth, HasOneFault, HasOneOperatorPlace};

/// Words are a content of one form and one shape.
pub fn one_content()
    ensures { HasOneContent }
{}

/// No content has a fault.
pub fn not_both()
    ensures { HasNotBoth }
{}

/// Words have one fault.
pub fn one_fault()
    ensures { HasOneFault }
{}

/// A content has one place of a first operator on a left side, or none.
pub fn one_operator_place()
    ensures { HasOneOperatorPlace }
{}
