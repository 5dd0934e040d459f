//! Laws of the definitions that contracts cite. The contract of each function is the law.
ghost use Rattle.rule_drafts.specs.Laws.{HasOneDraft, HasOneFault, HasDraftOrFault};

/// What was read of a rule is one draft.
pub fn one_draft()
    ensures { HasOneDraft }
{}

/// It has one fault but want of memory.
pub fn one_fault()
    ensures { HasOneFault }
{}

/// No draft has a fault but want of memory.
pub fn draft_or_fault()
    ensures { HasDraftOrFault }
{}
