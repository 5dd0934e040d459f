//! The law of completions.
ghost use Rattle.cell_completion.specs.Laws.{HasOneCompletion};

/// Written cells have one least completion at most.
pub fn one_completion()
    ensures { HasOneCompletion }
{}
