ghost use Rattle.std.specs.Prelude.{◌≡◌, ℕ, ◌≤◌, ◌∷◌, [], length, Some, IfOk, IfSome, IfNone, OnOk};
ghost use Rattle.rule_terms.specs.declared.rule.Rule.{Rule};
ghost use Rattle.rule_terms.specs.Substitution.{Subst};
ghost use Rattle.rule_terms.specs.Language.{rule_at};
ghost use Rattle.rule_terms.specs.Rewriting.{IsStuck};
ghost use Rattle.live_config.specs.Configuration.{plain};
ghost use Rattle.std.specs.List.{AllByRecursion};
ghost use Rattle.live_config.specs.declared.site.Fired.{Fired as FiredEntry};
ghost use Rattle.live_config.specs.Runs.{IsLog};
ghost use Rattle.front_run.specs.Front.{one_cell, Rewrites, NoneRewrites, AreFrontRules, front_entry};

use crate::rewrite::rewrite;
use k_terms::{CellList, Content, Many, Memory, Value, Values, copy_values};
use live_config::{Cell, CellNo, Fired, Live, Site};
use rule_terms::{Defs, Plain};
use std::alloc::Global;

/// How a run ended: no rule matches, or the budget is used up and a rule still matches.
#[derive(Clone, Copy, Debug, PartialEq, Eq)]
pub enum Ending {
    Final,
    Budget,
}

/// A run: how it ended, what fired in order, and the configuration that it left, with its numbers and without.
#[derive(Debug, Drop)]
pub struct Run {
    pub ending: Ending,
    pub fired: Many<Fired>,
    pub end: Live,
    pub plain: Plain,
}

/// The entry of a rule that fires at the front of the one cell, whose number is 1.
fn entry(alloc: Global, rule: u32) -> Result<Fired, Memory>
    ensures { IfOk result (λ fired. fired ≡ front_entry rule) }
{
    let mut cells = CellList::new(alloc);
    cells.push(1)?;
    Ok(Fired {
        site: Site {
            rule,
            cells,
            keys: Many::new(alloc),
        },
        births: CellList::new(alloc),
        by: 0,
    })
}

/// The least rule that matches at the front, by its number, and what it makes of the sequence. A definition of more rules
/// than numbers count is more than memory holds.
fn first_rewrite(
    alloc: Global,
    defs: &Defs,
    values: &[Value],
) -> Result<Option<(u32, Values)>, Memory>
    ensures rewrites { IfOk result (λ found. IfSome found (λ next. (r : Rule) × (s : Subst) ×
        (rule_at defs.now next.0 ≡ Some r) × Rewrites defs.now.sorts r s values.now next.1)) }
    ensures least { IfOk result (λ found. IfSome found (λ next. NoneRewrites defs.now values.now next.0)) }
    ensures none { IfOk result (λ found. IfNone found ((number : ℕ) → NoneRewrites defs.now values.now number)) }
{
    for number in 1..u32::MAX {
        let Some(rule) = defs.rule(number) else {
            return Ok(None);
        };
        if let Some(next) = rewrite(alloc, defs.sorts(), rule, values)? {
            return Ok(Some((number, next)));
        }
    }
    Err(Memory)
}

/// The configuration of the one cell `k`, whose number is 1, with this sequence.
fn one_cell_live(alloc: Global, values: Values) -> Result<Live, Memory>
    ensures { IfOk result (λ live. live.now ≡ one_cell values) }
{
    let mut live = Live::new(alloc);
    live.room(1)?;
    live.put(
        CellNo(1),
        Cell {
            kind: 0,
            parent: None,
            content: Content::Seq(values),
        },
    );
    Ok(live)
}

/// The same without its number.
fn plain_cell(alloc: Global, values: &Values) -> Result<Plain, Memory>
    ensures { IfOk result (λ cell. cell ≡ plain (one_cell values.now)) }
{
    Ok(Plain {
        cell: 0,
        content: Content::Seq(copy_values(alloc, values.as_slice())?),
        children: Many::new(alloc),
    })
}

fn ended(alloc: Global, ending: Ending, fired: Vec<Fired>, values: Values) -> Result<Run, Memory>
    ensures end { IfOk result (λ run. run.end.now ≡ one_cell values) }
    ensures plain { IfOk result (λ run. run.plain ≡ plain run.end.now) }
    ensures fired { IfOk result (λ run. run.fired ≡ fired.items) }
    ensures ending { IfOk result (λ run. run.ending ≡ ending) }
{
    let plain = plain_cell(alloc, &values)?;
    Ok(Run {
        ending,
        fired: Many::from_vec(fired),
        end: one_cell_live(alloc, values)?,
        plain,
    })
}

/// Runs a program at the front of the one cell `k`: fires the least rule that matches until none does, or until as many
/// as the budget have fired.
pub fn run_program(alloc: Global, defs: &Defs, program: Value, budget: u32) -> Result<Run, Memory>
    ensures alone { IfOk result (λ run. AllByRecursion (λ (entry : FiredEntry). entry.by ≡ 0) run.fired) }
    ensures log { IfOk result (λ run. IsLog defs.now (one_cell (program ∷ [])) run.fired run.end.now) }
    ensures plain { IfOk result (λ run. run.plain ≡ plain run.end.now) }
    ensures within { IfOk result (λ run. length run.fired ≤ budget) }
    ensures used_up { IfOk result (λ run. run.ending ≡ Ending.Budget → length run.fired ≡ budget) }
    ensures stuck { IfOk result (λ run. run.ending ≡ Ending.Final → AreFrontRules defs.now → IsStuck defs.now (plain run.end.now)) }
    ensures goes_on { IfOk result (λ run. run.ending ≡ Ending.Budget → IsStuck defs.now (plain run.end.now) → ⊥) }
{
    let mut first = Vec::with_capacity(alloc, 1)?;
    first.push(program)?;
    let mut values = Many::from_vec(first);
    let mut fired = Vec::new(alloc);
    for _ in 0..budget {
        let Some((rule, next)) = first_rewrite(alloc, defs, values.as_slice())? else {
            return ended(alloc, Ending::Final, fired, values);
        };
        fired.push(entry(alloc, rule)?)?;
        values = next;
    }
    let Some(_) = first_rewrite(alloc, defs, values.as_slice())? else {
        return ended(alloc, Ending::Final, fired, values);
    };
    ended(alloc, Ending::Budget, fired, values)
}
