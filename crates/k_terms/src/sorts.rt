ghost use Rattle.std.specs.Prelude.{◌≡◌, ◌↔◌, ℕ, ◌<◌, [], All, IfOk, IsTrue, IsFalse, length, get_or};
ghost use Rattle.k_terms.specs.Sorts.{SortOrder, Below};
ghost use Rattle.k_terms.specs.Sorts.{least_sort as least_sort_of, production_sort as production_sort_of};
ghost use Rattle.k_terms.specs.SortTable.{all_steps, IsInside, IsClosed, IsPass, IsRow, IsTable, leads_on, mark_step, single, unmarked};

use crate::many::Many;
use crate::memory::Memory;
use crate::value::Value;
use std::alloc::Global;
use std::marker::Model;

/// The numbers of the built-in sorts; declared sorts go on from 10.
pub mod sort {
    pub const K: u32 = 0;

    pub const KITEM: u32 = 1;

    pub const KRESULT: u32 = 2;

    pub const INT: u32 = 3;

    pub const BOOL: u32 = 4;

    pub const STRING: u32 = 5;

    pub const ID: u32 = 6;

    pub const MAP: u32 = 7;

    pub const LIST: u32 = 8;

    pub const BAG: u32 = 9;
}

/// The order of sorts and the sort of each production.
#[derive(Debug, Drop)]
pub struct Sorts {
    steps: Many<(u32, u32)>,
    productions: Many<u32>,
    rows: Many<Many<bool>>,
}

impl Model for Sorts {
    ghost use Rattle.k_terms.specs.Sorts.{SortOrder};

    ghost Value = { SortOrder };

    ghost use Rattle.k_terms.specs.SortTable.{IsTable};

    ghost view = { λ sorts. record { steps = sorts.steps; productions = sorts.productions } };

    ghost invariant = { λ sorts. IsTable (record { steps = sorts.steps; productions = sorts.productions }) sorts.rows };
}

impl Sorts {
    /// The order with these subsort steps, each with the lower sort first, and these sorts of productions, production 1
    /// first. The table that decides the order has a place for each two sorts up to the greatest that is named.
    pub fn new(alloc: Global, steps: &[(u32, u32)], productions: &[u32]) -> Result<Sorts, Memory>
        ensures ok { IfOk result (λ sorts. sorts ≡ record { steps = steps.now; productions = productions.now }) }
    {
        let every_step = every_step(alloc, steps, productions)?;
        let size = table_size(every_step.as_slice());
        let rows = table_rows(alloc, size, every_step.as_slice())?;
        Ok(Sorts {
            steps: Many::from_vec(Vec::from_slice(alloc, steps)?),
            productions: Many::from_vec(Vec::from_slice(alloc, productions)?),
            rows,
        })
    }

    /// The subsort steps, each with the lower sort first.
    pub fn steps(&self) -> &[(u32, u32)]
        ensures { result.now ≡ self.now.steps }
    {
        self.steps.as_slice()
    }

    /// The sort of each production, production 1 first.
    pub fn productions(&self) -> &[u32]
        ensures { result.now ≡ self.now.productions }
    {
        self.productions.as_slice()
    }

    /// Whether sort `low` is `high` or below it.
    pub fn below(&self, low: u32, high: u32) -> bool
        ensures { IsTrue result ↔ Below self.now low high }
    {
        let rows = self.rows.as_slice();
        let (row, place) = (low as usize, high as usize);
        if row < rows.len() && place < rows.len() {
            rows[row].as_slice()[place]
        } else {
            low == high
        }
    }

    /// The sort of a production by its number, and KItem where there is no such production.
    pub fn production_sort(&self, production: u32) -> u32
        ensures { result ≡ production_sort_of self.now production }
    {
        if production == 0 {
            return sort::KITEM;
        }
        match self.productions.get(production as usize - 1) {
            Some(sort) => *sort,
            None => sort::KITEM,
        }
    }

    /// The least sort of a value: its production's, or the built-in sort of its kind; KItem for a freezer.
    pub fn least_sort(&self, value: &Value) -> u32
        ensures { result ≡ least_sort_of self.now value.now }
    {
        match value {
            Value::Int(_) => sort::INT,
            Value::Bool(_) => sort::BOOL,
            Value::Str(_) => sort::STRING,
            Value::Id(_) => sort::ID,
            Value::Node(production, _) => self.production_sort(*production),
            Value::Items(production, _) => self.production_sort(*production),
            Value::Seq(_) => sort::K,
            Value::Map(_) => sort::MAP,
            Value::List(_) => sort::LIST,
            Value::Freezer(_, _, _) => sort::KITEM,
        }
    }
}

/// Every step of the order: the subsort steps, and those to KItem and from it to K.
fn every_step(
    alloc: Global,
    steps: &[(u32, u32)],
    productions: &[u32],
) -> Result<Vec<(u32, u32)>, Memory>
    ensures ok { IfOk result (λ every. every.items ≡ all_steps (record { steps = steps.now; productions = productions.now })) }
{
    let mut every = Vec::from_slice(alloc, steps)?;
    for production in productions {
        every.push((*production, sort::KITEM))?;
    }
    every.extend_from_slice(&[
        (sort::INT, sort::KITEM),
        (sort::BOOL, sort::KITEM),
        (sort::STRING, sort::KITEM),
        (sort::ID, sort::KITEM),
        (sort::KRESULT, sort::KITEM),
        (sort::KITEM, sort::K),
    ])?;
    Ok(every)
}

/// A number above every sort of the steps.
fn table_size(steps: &[(u32, u32)]) -> usize
    ensures { All (IsInside result) steps.now }
{
    let mut size = 0;
    for (low, high) in steps {
        size = size.max(*low as usize + 1).max(*high as usize + 1);
    }
    size
}

/// The row of each sort below `size`.
fn table_rows(alloc: Global, size: usize, steps: &[(u32, u32)]) -> Result<Many<Many<bool>>, Memory>
    requires { All (IsInside size) steps.now }
    ensures size { IfOk result (λ rows. length rows ≡ size) }
    ensures each { IfOk result (λ rows. (sort : ℕ) → sort < size → IsRow steps.now size sort (get_or rows sort [])) }
{
    let mut rows = Vec::with_capacity(alloc, size)?;
    for sort in 0..size {
        rows.push(sorts_above(alloc, size, sort, steps)?)?;
    }
    Ok(Many::from_vec(rows))
}

/// The row that marks the sort and those above it.
fn sorts_above(
    alloc: Global,
    size: usize,
    sort: usize,
    steps: &[(u32, u32)],
) -> Result<Many<bool>, Memory>
    requires within { sort < size }
    requires inside { All (IsInside size) steps.now }
    ensures ok { IfOk result (IsRow steps.now size sort) }
{
    let mut row = single_row(alloc, size, sort)?;
    mark_above(&mut row, steps);
    Ok(Many::from_vec(row))
}

/// The row that marks the sort alone.
fn single_row(alloc: Global, size: usize, sort: usize) -> Result<Vec<bool>, Memory>
    requires { sort < size }
    ensures ok { IfOk result (λ row. row.items ≡ single size sort) }
{
    let mut row = vec![in alloc; false; size]?;
    row[sort] = true;
    Ok(row)
}

/// Marks the upper sorts of steps whose lower sort is marked until no step leads on.
fn mark_above(row: &mut [bool], steps: &[(u32, u32)])
    requires { All (IsInside (length row.old)) steps.now }
    ensures pass { IsPass steps.now row.old row.new }
    ensures closed { IsClosed steps.now row.new }
{
    while mark_upper(row, steps) {}
}

/// Marks the upper sort of each step whose lower sort is marked, and says whether one was new.
fn mark_upper(row: &mut [bool], steps: &[(u32, u32)]) -> bool
    requires { All (IsInside (length row.old)) steps.now }
    ensures pass { IsPass steps.now row.old row.new }
    ensures fewer { IsTrue result → unmarked row.new < unmarked row.old }
    ensures closed { IsFalse result → IsClosed steps.now row.new }
{
    let mut has_marked = false;
    for (low, high) in steps {
        has_marked |= mark(row, *low as usize, *high as usize);
    }
    has_marked
}

/// Marks `high` where `low` is marked, and says whether that is new.
fn mark(row: &mut [bool], low: usize, high: usize) -> bool
    requires low { low < length row.old }
    requires high { high < length row.old }
    ensures marked { row.new ≡ mark_step row.old low high }
    ensures is_new { result ≡ leads_on row.old low high }
{
    let leads_on = row[low] && !row[high];
    if leads_on {
        row[high] = true;
    }
    leads_on
}
