use k_terms::{CellList, Content, Many, Values};

/// Where a rule fires: the rule by its number, from 1, the cell for each left cell in pre-order, and the key for each
/// left map entry in the same order.
#[derive(Debug, Drop, PartialEq, Eq)]
pub struct Site {
    pub rule: u32,
    pub cells: CellList,
    pub keys: Values,
}

/// A firing: its site, the numbers of the new cells in the rule's pre-order, and the number of the worker, which is 0 for
/// the caller.
#[derive(Debug, Drop, PartialEq, Eq)]
pub struct Fired {
    pub site: Site,
    pub births: CellList,
    pub by: u32,
}

/// Contents of cells, in the order of a site's cells.
#[derive(Debug, Drop, PartialEq, Eq)]
pub struct Parts {
    pub contents: Many<Content>,
}
