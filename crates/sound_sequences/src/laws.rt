//! The laws of sequences in drafts. The contract of each function is the law.
ghost use Rattle.sound_sequences.specs.Laws.{WholeSequences};

use sorted_grammar::laws::have_names;

/// In the draft of a rule whole sequences and rests stand where they may.
pub fn whole_sequences()
    ensures { WholeSequences }
{
    have_names();
}
