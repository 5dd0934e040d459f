//! Where an item stands in a content.

/// What an item is: one of a sequence, a key or a value of a map, or a member of a list.
#[derive(Clone, Copy, Debug, PartialEq, Eq)]
pub enum Way {
    Item,
    Key,
    Value,
    Member,
}
