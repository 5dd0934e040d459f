//! The laws of the patterns of drafts. The contract of each function is the law.
ghost use Rattle.sound_patterns.specs.Laws.{SoundValues};

use sorted_grammar::laws::have_names;

/// The patterns of the draft of a rule have values and numbers as a sound rule has, and no operator on the left.
pub fn sound_values()
    ensures { SoundValues }
{
    have_names();
}
