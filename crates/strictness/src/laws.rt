//! Laws of the definitions that contracts cite. The contract of each function is the law.
ghost use Rattle.strictness.specs.Laws.{HaveOneFault, HaveNotBoth, AreSound, AreSoundDrafts};

/// Productions have at most one fault.
pub fn one_fault()
    ensures { HaveOneFault }
{}

/// Productions without a bad place have none.
pub fn not_both()
    ensures { HaveNotBoth }
{}

/// Where the cell `k` is the root, the rules are sound as they stand.
pub fn are_sound()
    ensures { AreSound }
{}

/// Whatever cells are added around theirs, the rules are fit to be sound.
pub fn are_sound_drafts()
    ensures { AreSoundDrafts }
{}
