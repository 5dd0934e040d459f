//! The law of the kinds of a draft's cells. The contract of the function is the law.
ghost use Rattle.sound_kinds.specs.Laws.{IsOfKinds};

use sorted_grammar::laws::have_names;

/// The cells of the draft of a rule are of their declared kinds.
pub fn is_of_kinds()
    ensures { IsOfKinds }
{
    have_names();
}
