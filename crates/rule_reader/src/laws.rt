//! Laws of the definitions that contracts cite. The contract of each function is the law.
ghost use Rattle.rule_reader.specs.Laws.{HasOneDraft, HasOneRefusal, HasNotBoth};

/// The text of a rule is one draft.
pub fn one_draft()
    ensures { HasOneDraft }
{}

/// Or it has one refusal.
pub fn one_refusal()
    ensures { HasOneRefusal }
{}

/// But never both.
pub fn not_both()
    ensures { HasNotBoth }
{}
