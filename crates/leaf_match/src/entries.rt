//! Entries of a rule's map, matched against those that stand at given places.
ghost use Rattle.std.specs.Prelude.{◌≡◌, Some, IfOk, IsTrue};
ghost use Rattle.std.specs.List.{list_all, list_any};
ghost use Rattle.rule_terms.specs.Eval.{eval_entries};
ghost use Rattle.leaf_match.specs.Bindings.{AreSuited, Tells, Reaches};
ghost use Rattle.leaf_match.specs.Maps.{Entries, PickedAt, HavePlaces, is_plain_entry, mentions_entry};

use crate::bindings::Bindings;
use crate::values::match_value;
use crate::variables::Variables;
use k_terms::{Memory, Value};
use rule_terms::Pattern;
use std::alloc::Global;

/// Matches each entry against the one at its place.
pub(crate) fn match_entries<'a>(
    alloc: Global,
    variables: &Variables<'_>,
    patterns: &[(Pattern, Pattern)],
    entries: &'a [(Value, Value)],
    places: &[u64],
    bindings: &mut Bindings<'a>,
) -> Result<bool, Memory>
    requires suited { AreSuited variables.now.sorts.now variables.now.vars.now bindings.old }
    requires plain { IsTrue (list_all is_plain_entry patterns.now) }
    requires places { HavePlaces entries.now patterns.now places.now }
    ensures suited { IfOk result (λ _. AreSuited variables.now.sorts.now variables.now.vars.now bindings.new) }
    ensures reaches { IfOk result (λ found. Reaches found bindings.old bindings.new (λ x. list_any (mentions_entry x) patterns.now)) }
    ensures tells { (es : Entries) → PickedAt entries.now places.now es → IfOk result (λ found.
        Tells variables.now.sorts.now variables.now.vars.now found bindings.old bindings.new
        (λ s. eval_entries patterns.now s ≡ Some es)) }
{
    for (i, pattern) in patterns.iter().enumerate() {
        let entry = &entries[places[i] as usize];
        if !match_value(alloc, variables, &pattern.0, &entry.0, bindings)? {
            return Ok(false);
        }
        if !match_value(alloc, variables, &pattern.1, &entry.1, bindings)? {
            return Ok(false);
        }
    }
    Ok(true)
}
