//! The laws of completed drafts.
ghost use Rattle.context_transform.specs.Laws.{HasOneRule, HasOneReason, HasRuleOrReason};

/// A draft is completed to one rule at most.
pub fn one_rule()
    ensures { HasOneRule }
{}

/// One thing at most is told of a draft that is completed to none.
pub fn one_reason()
    ensures { HasOneReason }
{}

/// A draft is not both.
pub fn rule_or_reason()
    ensures { HasRuleOrReason }
{}
