//! Laws of the definitions that contracts cite. The contract of each function is the law.
ghost use Rattle.import_order.specs.Laws.{HasOneClosure, StandsOnce, StandsInFront, HasWhatIsReached, LiesOnNoCycle, HasNoOrder};

/// A module has at most one closure.
pub fn one_closure()
    ensures { HasOneClosure }
{}

/// Each module of a closure stands at one place alone.
pub fn stands_once()
    ensures { StandsOnce }
{}

/// What a module of a closure imports stands in front of it.
pub fn stands_in_front()
    ensures { StandsInFront }
{}

/// The modules of a closure are its own and those that it reaches.
pub fn has_what_is_reached()
    ensures { HasWhatIsReached }
{}

/// A module with a closure lies on no cycle.
pub fn lies_on_no_cycle()
    ensures { LiesOnNoCycle }
{}

/// Modules from which imports lead to a cycle have no order.
pub fn no_order()
    ensures { HasNoOrder }
{}
