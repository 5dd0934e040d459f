//! The laws of completed rules. The contract of each function is the law.
ghost use Rattle.completed_rules.specs.Laws.{IsCompletedSoundly};

/// A sound draft that fits declared cells with sound contents is completed to a sound rule.
pub fn completed_soundly()
    ensures { IsCompletedSoundly }
{}
