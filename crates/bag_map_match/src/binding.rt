//! What a rule binds at a site.
ghost use Rattle.std.specs.Prelude.{◌≡◌, Some, IfOk, IsTrue};
ghost use Rattle.rule_terms.specs.Language.{rule_at};
ghost use Rattle.rule_terms.specs.Sound.{IsSound};
ghost use Rattle.live_config.specs.Fits.{Fits};
ghost use Rattle.bag_map_match.specs.Binding.{IsLeftBound, IsBinding};

use crate::cells::all_different;
use crate::left::{Left, match_cells};
use crate::spots::spots_of;
use k_terms::Memory;
use leaf_match::{Bindings, Variables};
use live_config::{Live, Site};
use right_sides::{all_met, right_contents};
use rule_terms::{Defs, Rule};
use std::alloc::Global;

/// What the left cells of a rule bind at a site. `None` where they hold there under no substitution.
fn bind_left<'a>(
    alloc: Global,
    defs: &Defs,
    live: &'a Live,
    rule: &Rule,
    site: &Site,
) -> Result<Option<Bindings<'a>>, Memory>
    requires sound { IsSound defs.now }
    requires fits { Fits defs.now live.now.now }
    requires rule { rule_at defs.now site.now.rule ≡ Some rule.now }
    ensures { IfOk result (IsLeftBound defs.now live.now.now site.now rule.now) }
{
    let spots = spots_of(alloc, &rule.left)?;
    let variables = Variables {
        sorts: defs.sorts(),
        vars: rule.vars.as_slice(),
    };
    let left = Left {
        live,
        spots: &spots,
        numbers: site.cells.as_slice(),
    };
    let mut bindings = Bindings::free(alloc, variables.vars)?;
    let keys = site.keys.as_slice();
    if !match_cells(
        alloc,
        &left,
        &variables,
        &spots,
        left.numbers,
        keys,
        &mut bindings,
    )? {
        return Ok(None);
    }
    Ok(Some(bindings))
}

/// What the variables of its rule stand for at a site, lent out of the configuration, which fits the definition. `None` where
/// the site doesn't bind: its rule or one of its cells is not there, they or the keys don't fit the left side, a condition is
/// not met, or the right side is not defined.
pub fn binds<'a>(
    alloc: Global,
    defs: &Defs,
    live: &'a Live,
    site: &Site,
) -> Result<Option<Bindings<'a>>, Memory>
    requires { Fits defs.now live.now.now }
    ensures { IfOk result (IsBinding defs.now live.now.now site.now) }
{
    defs.sound();
    let Some(rule) = defs.rule(site.rule) else {
        return Ok(None);
    };
    if !all_different(site.cells.as_slice()) {
        return Ok(None);
    }
    let bindings = match bind_left(alloc, defs, live, rule, site)? {
        Some(bindings) => bindings,
        None => return Ok(None),
    };
    if !all_met(alloc, defs.sorts(), &bindings, rule.when.as_slice())? {
        return Ok(None);
    }
    match right_contents(alloc, &bindings, &rule.right)? {
        Some(_) => Ok(Some(bindings)),
        None => Ok(None),
    }
}
