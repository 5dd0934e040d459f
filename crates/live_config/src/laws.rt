//! Laws of the definitions that contracts cite. Each function does nothing: its contract is the law.
ghost use Rattle.live_config.specs.Laws.{SitesAreMatches, FiringReplacesCells, FiringMakesKinds, FiringKeepsFit, FiringIsStep, LogIsRun};

/// Where a rule binds, its left side is the configuration without numbers, under the substitution.
pub fn sites_are_matches()
    ensures { SitesAreMatches }
{}

/// After a firing each right cell stands at a number of its own; at every other number nothing stands where a cell goes, and
/// else what stood there.
pub fn firing_replaces_cells()
    ensures { FiringReplacesCells }
{}

/// The contents that a firing makes are of their declared cells' kinds.
pub fn firing_makes_kinds()
    ensures { FiringMakesKinds }
{}

/// A firing in a configuration that fits leads to one that fits.
pub fn firing_keeps_fit()
    ensures { FiringKeepsFit }
{}

/// A firing is one step of ordinary rewriting.
pub fn firing_is_step()
    ensures { FiringIsStep }
{}

/// A log of firings is a run of ordinary rewriting.
pub fn log_is_run()
    ensures { LogIsRun }
{}
