//! The laws of sound drafts. The contract of each function is the law.
ghost use Rattle.sound_drafts.specs.Laws.{StrictFit, CellsFit, KnowsItsVariables, BindsItsVariables};

use sorted_grammar::laws::have_names;

/// The rules of heating and cooling fit the declared cells.
pub fn strict_fit()
    ensures { StrictFit }
{}

/// The cells of the draft of a rule fit the declared ones, as far as no content is asked.
pub fn cells_fit()
    ensures { CellsFit }
{}

/// The variables that stand in the draft of a rule are declared, and a rest of cells stands in its cell alone.
pub fn knows_its_variables()
    ensures { KnowsItsVariables }
{}

/// The variables of the draft of a rule stand on its left.
pub fn binds_its_variables()
    ensures { BindsItsVariables }
{
    have_names();
}
