//! The laws of sites and steps. The contract of each function is the law.
ghost use Rattle.step_laws.specs.Laws.{SitesFire, EachStepHasASite, StuckWithoutSites};

/// A site at which a rule binds fires with any births that are free.
pub fn sites_fire()
    ensures { SitesFire }
{}

/// Each step of ordinary rewriting has a site at which it fires.
pub fn each_step_has_a_site()
    ensures { EachStepHasASite }
{}

/// No rule matches just where there is no site.
pub fn stuck_without_sites()
    ensures { StuckWithoutSites }
{}
