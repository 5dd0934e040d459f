//! Laws of the definitions that contracts cite. The contract of each function is the law.
ghost use Rattle.program_tokens.specs.Laws.{HasOneSplit, HasLeastBad, HasSymbols};

/// For given names a text is split in one way.
pub fn one_split()
    ensures { HasOneSplit }
{}

/// Where a text has a fault there is a bad place, which is not past the fault.
pub fn least_bad()
    ensures { HasLeastBad }
{}

/// Each identifier has the number of its word.
pub fn symbols()
    ensures { HasSymbols }
{}
