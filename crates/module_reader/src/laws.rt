//! Laws of the definitions that contracts cite. The contract of each function is the law.
ghost use Rattle.module_reader.specs.Laws.{HasOnePlace, HasNotBoth, AreInOrder, HaveOneList};

/// There is one place alone where no file can go on.
pub fn one_place()
    ensures { HasOnePlace }
{}

/// No text has modules and a place where no file can go on.
pub fn not_both()
    ensures { HasNotBoth }
{}

/// The modules of a text import one another without a cycle.
pub fn are_in_order()
    ensures { AreInOrder }
{}

/// The sentences of a definition are determined by its modules.
pub fn one_list()
    ensures { HaveOneList }
{}
