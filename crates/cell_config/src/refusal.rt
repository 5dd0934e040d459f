use k_terms::Text;
use sorted_grammar::What;

/// Why the configurations of a definition are none. The first of these that holds is told.
#[derive(Debug, Drop, PartialEq, Eq)]
pub enum CellRefusal {
    /// A cell of this name was declared before, or it is the root of a further configuration: the first such one of the text. A
    /// cell counts where its name stands before the first place at which the text of its configuration is none.
    TwoCells { name: Text },
    /// There is no configuration, or all are whole and none has a cell `k` with the program.
    NoK,
    /// In the cell of this name, the innermost that is open, the text is none of a configuration; or the cell has the program and
    /// isn't `k`. The name is empty where no cell is open.
    CellContent { name: Text },
    /// There are more cells than there may be, 64: this many.
    TooMany { what: What, n: u64 },
    /// Memory was wanting.
    Memory,
}
