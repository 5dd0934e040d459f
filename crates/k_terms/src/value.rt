ghost use Rattle.std.specs.Prelude.{◌≡◌, IsTrue};
ghost use Rattle.std.specs.FinMap.{is_sorted};
ghost use Rattle.k_terms.specs.Value.{value_cmp};

use crate::many::Many;

/// Bytes of a text.
pub type Text = Many<u8>;

/// A list of values.
pub type Values = Many<Value>;

/// Entries of a map: their keys rise in the order of values.
pub type Pairs = Many<(Value, Value)>;

/// An identifier of the program, by its position among the words that were read.
#[derive(Clone, Copy, Debug, PartialEq, Eq, PartialOrd, Ord)]
pub struct Symbol(pub u32);

/// A value of the language that is run. The number in `Node`, `Items` and `Freezer` is a production's number;
/// `Freezer(p, i, args)` is production `p` with a hole at its argument `i`, counted from 1, and the other arguments in
/// order. `Items` is a list of a list sort, `Seq` a whole computation.
#[derive(Debug, Drop, PartialEq, Eq, PartialOrd, Ord)]
pub enum Value {
    Int(i128),
    Bool(bool),
    Str(Text),
    Id(Symbol),
    Node(u32, Values),
    Items(u32, Values),
    Seq(Values),
    Map(Pairs),
    List(Values),
    Freezer(u32, u32, Values),
}

/// What a cell contains: cells, which are kept elsewhere, or a whole sequence, map, list or single value.
#[derive(Debug, Drop, PartialEq, Eq)]
pub enum Content {
    Cells,
    Seq(Values),
    Map(Pairs),
    List(Values),
    One(Value),
}

impl Many<(Value, Value)> {
    /// The map of these entries.
    pub fn from_entries(entries: Vec<(Value, Value)>) -> Pairs
        requires { IsTrue (is_sorted value_cmp entries.items) }
        ensures { result ≡ entries.items }
    {
        Many::from_vec(entries)
    }

    /// The entries in the order of their keys.
    pub fn into_entries(self) -> Vec<(Value, Value)>
        ensures { result.items ≡ self }
    {
        self.into_vec()
    }
}
