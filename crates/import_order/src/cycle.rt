//! Modules that lie on a cycle of imports.
ghost use Rattle.std.specs.Prelude.{◌↔◌, ℕ, ◌<◌, length, IfOk, MatchOption, IsTrue};
ghost use Rattle.import_order.specs.Imports.{Has, AreWithin, HasNoCycle, Reaches};
ghost use Rattle.import_order.specs.Reaching.{IsAdded};

use crate::orders::order;
use k_terms::{Many, Memory};
use std::alloc::Global;

/// Marks what is imported and not seen yet, and adds it to the work.
fn add_unseen(imports: &[usize], seen: &mut [bool], work: &mut Vec<usize>) -> Result<(), Memory>
    requires { (m : ℕ) → Has imports.now m → m < length seen.old }
    ensures { IfOk result (λ _. IsAdded imports.now seen.old seen.new work.old.items work.new.items) }
{
    for import in imports {
        if seen[*import] {
            continue;
        }
        seen[*import] = true;
        work.push(*import)?;
    }
    Ok(())
}

/// Whether imports lead from a module back to it.
fn reaches_itself(alloc: Global, graph: &[Many<usize>], start: usize) -> Result<bool, Memory>
    requires within { AreWithin graph.now }
    requires start { start < length graph.now }
    ensures { IfOk result (λ reaches. IsTrue reaches ↔ Reaches graph.now start start) }
{
    let mut seen = vec![in alloc; false; graph.len()]?;
    let mut work = Vec::new(alloc);
    work.push(start)?;
    while let Some(next) = work.pop() {
        add_unseen(graph[next].as_slice(), &mut seen, &mut work)?;
    }
    Ok(seen[start])
}

/// The numbers below the number of modules.
fn all_modules(alloc: Global, count: usize) -> Result<Vec<usize>, Memory>
    ensures { IfOk result (λ all. (m : ℕ) → Has all.items m ↔ (m < count)) }
{
    let mut all = Vec::new(alloc);
    for number in 0..count {
        all.push(number)?;
    }
    Ok(all)
}

/// The first module of the text that lies on a cycle. Where there is none, which is the usual case, the time is linear in
/// the modules and their imports. Where there is one, each module before it is searched from, and the time is quadratic.
pub fn first_on_cycle(alloc: Global, graph: &[Many<usize>]) -> Result<Option<usize>, Memory>
    requires { AreWithin graph.now }
    ensures { IfOk result (λ found. MatchOption found (HasNoCycle graph.now)
        (λ first. Reaches graph.now first first × ((m : ℕ) → m < first → Reaches graph.now m m → ⊥))) }
{
    let all = all_modules(alloc, graph.len())?;
    if order(alloc, graph, &all)?.is_some() {
        return Ok(None);
    }
    for number in 0..graph.len() {
        if reaches_itself(alloc, graph, number)? {
            return Ok(Some(number));
        }
    }
    unreachable!()
}
