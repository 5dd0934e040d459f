//! Laws of the definitions that contracts cite. The contract of each function is the law.
ghost use Rattle.program_reader.specs.Laws.{HasOneValue, HasNotBoth, HasOneRefusal};

/// A text is a program with one value.
pub fn one_value()
    ensures { HasOneValue }
{}

/// No program is refused.
pub fn not_both()
    ensures { HasNotBoth }
{}

/// All refusals of a text are alike: the same, or each of two different readings.
pub fn one_refusal()
    ensures { HasOneRefusal }
{}
