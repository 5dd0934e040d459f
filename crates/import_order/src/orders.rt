//! The order of modules with all that they import.
ghost use Rattle.std.specs.Prelude.{ℕ, ◌<◌, length, IfOk, MatchOption};
ghost use Rattle.import_order.specs.Imports.{Has, AreWithin, LeadsToCycle, HasNoCycle};
ghost use Rattle.import_order.specs.Order.{IsClosure, IsOrder};

use crate::walk::{new_walk, visit};
use k_terms::{Many, Memory};
use std::alloc::Global;

/// The closures of the roots one after the other, each module at its first place, or `None` where imports lead from a
/// root to a cycle. The time is linear in the modules and their imports, and no call is nested, however long a chain of
/// imports is.
pub fn order(
    alloc: Global,
    graph: &[Many<usize>],
    roots: &[usize],
) -> Result<Option<Vec<usize>>, Memory>
    requires within { AreWithin graph.now }
    requires roots { (m : ℕ) → Has roots.now m → m < length graph.now }
    ensures { IfOk result (λ found. MatchOption found (LeadsToCycle graph.now roots.now) (λ order. IsOrder graph.now roots.now order.items)) }
{
    let mut walk = new_walk(alloc, graph)?;
    for root in roots {
        if !visit(&mut walk, graph, *root)? {
            return Ok(None);
        }
    }
    Ok(Some(walk.order))
}

/// The import closure of a module, in its order, where no module lies on a cycle.
pub fn closure(alloc: Global, graph: &[Many<usize>], root: usize) -> Result<Vec<usize>, Memory>
    requires within { AreWithin graph.now }
    requires root { root < length graph.now }
    requires no_cycle { HasNoCycle graph.now }
    ensures { IfOk result (λ order. IsClosure graph.now root order.items) }
{
    match order(alloc, graph, &[root])? {
        Some(order) => Ok(order),
        None => unreachable!(),
    }
}
