//! The laws of the rules of a definition. The contract of each function is the law.
ghost use Rattle.sound_rules.specs.Laws.{WrittenRulesAreSound, StrictRulesAreSound, CellsDeclareLiterals};

use completed_rules::laws::completed_soundly;
use draft_laws::laws::{written_rules, written_strict};
use sound_drafts::laws::{binds_its_variables, cells_fit, knows_its_variables, strict_fit};
use sound_kinds::laws::is_of_kinds;
use sound_patterns::laws::sound_values;
use sound_sequences::laws::whole_sequences;
use strictness::laws::are_sound_drafts;

/// The rules that a text writes are sound.
pub fn written_rules_sound()
    ensures { WrittenRulesAreSound }
{
    sound_values();
    whole_sequences();
    cells_fit();
    knows_its_variables();
    binds_its_variables();
    is_of_kinds();
    written_rules();
    completed_soundly();
}

/// The rules of heating and cooling are sound.
pub fn strict_rules_sound()
    ensures { StrictRulesAreSound }
{
    are_sound_drafts();
    strict_fit();
    written_strict();
    completed_soundly();
}

/// The single values that the cells of a definition declare are literals.
pub fn cells_declare_literals()
    ensures { CellsDeclareLiterals }
{}
