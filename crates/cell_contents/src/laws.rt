//! Laws of the definitions that contracts cite. The contract of each function is the law.
ghost use Rattle.cell_contents.specs.Laws.{DeclareOne, HaveNotBoth};
ghost use Rattle.cell_contents.specs.Soundness.{ContentsAreSound};

/// Tokens declare one thing at most.
pub fn declare_one()
    ensures { DeclareOne }
{}

/// And never both something and a fault.
pub fn have_not_both()
    ensures { HaveNotBoth }
{}

/// What tokens declare is sound.
pub fn contents_are_sound()
    ensures { ContentsAreSound }
{}
