//! Laws of the definitions that contracts cite. The contract of each function is the law. They follow from those of the forms of
//! cells.
ghost use Rattle.cell_config.specs.Laws.{HasOneTree, HasOneRefusal, HasNotBoth, AreDeclaredSoundly};

use cell_forms::laws::{form_or_stop, one_form, one_stop, tree};

/// The configurations of a definition are one tree.
pub fn one_tree()
    ensures { HasOneTree }
{
    one_form();
    one_stop();
    form_or_stop();
    tree();
}

/// Or they have one refusal.
pub fn one_refusal()
    ensures { HasOneRefusal }
{
    one_form();
    one_stop();
    form_or_stop();
}

/// But never both.
pub fn not_both()
    ensures { HasNotBoth }
{
    one_form();
    one_stop();
    form_or_stop();
}

/// What the cells declare is sound.
pub fn declared_soundly()
    ensures { AreDeclaredSoundly }
{}
