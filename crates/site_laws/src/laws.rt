//! The laws of sites. The contract of each function is the law.
ghost use Rattle.site_laws.specs.Laws.{MatchesHaveSites, SitesDetermine};

/// A rule whose left side is the configuration without numbers binds at a site.
pub fn matches_have_sites()
    ensures { MatchesHaveSites }
{}

/// A site at which a rule binds determines the rule and what its variables stand for.
pub fn sites_determine()
    ensures { SitesDetermine }
{}
