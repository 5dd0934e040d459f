use k_terms::{Many, Numbers, Text};

/// An item of a production.
#[derive(Debug, Drop, PartialEq, Eq)]
pub enum Item {
    /// What stands in a program's text as it is here.
    Terminal(Text),
    /// A reading of a sort.
    Sort(Text),
}

/// How a production is written.
#[derive(Debug, Drop, PartialEq, Eq)]
pub enum Form {
    /// By its items.
    Plain,
    /// By a word, and the sorts of its arguments in parentheses; the word is its label.
    Prefix(Text),
    /// As the lists of a sort, its one item, with a text between, which may be empty.
    UserList {
        /// What stands between two elements.
        separator: Text,
    },
}

/// Which arguments are evaluated first.
#[derive(Debug, Drop, PartialEq, Eq)]
pub enum Strict {
    /// None by this attribute.
    No,
    /// All.
    All,
    /// Those of these numbers, counted from 1 among the sorts, as they are written.
    Places(Numbers),
}

/// The attributes of a production; one that is written twice counts once.
#[derive(Debug, Drop, PartialEq, Eq)]
pub struct Attrs {
    /// `left`
    pub left: bool,
    /// `right`
    pub right: bool,
    /// `non-assoc`
    pub non_assoc: bool,
    /// `bracket`
    pub bracket: bool,
    /// `strict`, or `strict(..)` with numbers
    pub strict: Strict,
    /// `seqstrict`
    pub seqstrict: bool,
}

/// A production of a sort.
#[derive(Debug, Drop, PartialEq, Eq)]
pub struct Prod {
    /// Its items in order. A prefix production has its word, parentheses and commas as terminals; a list production has
    /// the sort of its elements.
    pub items: Many<Item>,
    /// Its attributes.
    pub attrs: Attrs,
    /// How it is written.
    pub form: Form,
}
