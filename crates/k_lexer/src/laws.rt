//! Laws of the definitions that contracts cite. The contract of each function is the law.
ghost use Rattle.k_lexer.specs.Laws.{HasOneList, HasOneFault, HasNotBoth, HasOneFront, HasWholeFront, HasStoppedFront, HasStanding};

/// A text has at most one list of tokens.
pub fn one_list()
    ensures { HasOneList }
{}

/// A text has at most one fault.
pub fn one_fault()
    ensures { HasOneFault }
{}

/// No text has tokens and a fault.
pub fn not_both()
    ensures { HasNotBoth }
{}

/// Before each place a text has one list of tokens.
pub fn one_front()
    ensures { HasOneFront }
{}

/// Where a text has tokens, those before its end are its tokens.
pub fn whole_front()
    ensures { HasWholeFront }
{}

/// The tokens before a place where nothing can be taken are those that lead there.
pub fn stopped_front()
    ensures { HasStoppedFront }
{}

/// Tokens that lead somewhere stand in the text, each a token of its kind.
pub fn standing()
    ensures { HasStanding }
{}
