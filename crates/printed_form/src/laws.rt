//! The law of the printed form, as a function whose contract is the law.

ghost use Rattle.printed_form.specs.Laws.{OrderOfChildrenIsFree};

/// Configurations that differ only in the order of children have one printed form.
pub fn order_of_children_is_free()
    ensures { OrderOfChildrenIsFree }
{}
