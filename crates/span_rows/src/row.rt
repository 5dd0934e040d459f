ghost use Rattle.std.specs.Prelude.{◌≡◌, ◌↔◌, IsTrue};

use crate::sign::Sign;
use k_terms::Many;

/// What places tell apart of a shape.
#[derive(Debug, Clone, Copy, PartialEq, Eq)]
pub enum Class {
    /// A list of just one element, without a rest.
    Lone,
    /// A variable without a sort.
    Wild,
    /// Any other shape.
    Other,
}

/// How many shapes some items have, and of a single one its class.
#[derive(Debug, Clone, Copy, PartialEq, Eq)]
pub enum Held {
    /// None.
    Nothing,
    /// One.
    One(Class),
    /// Two or more.
    More,
}

/// What a row of the table says of its span, its code apart.
#[derive(Debug, Clone, Copy, PartialEq, Eq)]
pub enum Key {
    /// The first items of a production read it, so many. Production 0 is a sequence, from its opening parenthesis on: after
    /// none of its items a part comes next, and after one of them an arrow or the closing parenthesis.
    Front(u32, u32, Held),
    /// A production reads it, with a shape of a class.
    Whole(u32, Class),
    /// It is one token, which is a reading of its own sort.
    Token(u32),
    /// It is one token, a variable without a sort.
    Wild,
    /// It is one token, for which the places of a number ask.
    Place(u64),
    /// It is a sequence: the empty one, or parts in parentheses.
    Sequence,
}

/// A row of the table: what it says, and the code of the shapes.
#[derive(Debug, Drop)]
pub struct Row {
    /// What it says of its span.
    pub key: Key,
    /// The shapes.
    pub code: Many<Sign>,
}

pub(crate) fn same_key(one: &Key, other: &Key) -> bool
    ensures { IsTrue result ↔ (one.now ≡ other.now) }
{
    one == other
}
