//! Laws of the definitions that contracts cite. The contract of each function is the law.
ghost use Rattle.rule_cells.specs.Laws.{HasOneForm, HasOnePlace, HasFormOrPlace};

/// The text of a rule has one form.
pub fn one_form()
    ensures { HasOneForm }
{}

/// Or it has one place at which it has no reading.
pub fn one_place()
    ensures { HasOnePlace }
{}

/// But never both.
pub fn form_or_place()
    ensures { HasFormOrPlace }
{}
