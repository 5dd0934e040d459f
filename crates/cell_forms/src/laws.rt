//! Laws of the definitions that contracts cite. The contract of each function is the law.
ghost use Rattle.cell_forms.specs.Laws.{HasOneForm, HasOneStop, HasFormOrStop, HasTree};

/// Tokens have one form.
pub fn one_form()
    ensures { HasOneForm }
{}

/// Or they stop at one place.
pub fn one_stop()
    ensures { HasOneStop }
{}

/// But never both.
pub fn form_or_stop()
    ensures { HasFormOrStop }
{}

/// The cells of a configuration are a tree.
pub fn tree()
    ensures { HasTree }
{}
