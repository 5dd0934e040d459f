//! The laws of drafts. The contract of each function is the law.
ghost use Rattle.draft_laws.specs.Laws.{AreWrittenRules, AreWrittenStrict};

/// The draft of a rule may be completed over the declared cells that the rule was read for.
pub fn written_rules()
    ensures { AreWrittenRules }
{}

/// And so may the rules of heating and cooling.
pub fn written_strict()
    ensures { AreWrittenStrict }
{}
