//! A law of the definitions. The function does nothing: its contract is the law.
ghost use Rattle.front_run.specs.Laws.{FrontStepsHaveSites};

/// Where all rules are at the front, each step of ordinary rewriting from the one cell has a site at which it fires.
pub fn front_steps_have_sites()
    ensures { FrontStepsHaveSites }
{}
