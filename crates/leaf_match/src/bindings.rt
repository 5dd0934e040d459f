//! What the variables of a rule stand for, lent out of the contents that bodies are matched against.
ghost use Rattle.std.specs.Prelude.{◌≡◌, ◌==◌, ◌&&◌, ℕ, not, map, None, Some, IfOk, IfSome, IsTrue, slice_get, option_copied};
ghost use Rattle.std.specs.Option.{option_map, option_and_then};
ghost use Rattle.rule_terms.specs.Substitution.{value_at};
ghost use Rattle.rule_terms.specs.Sound.{has_no_operator, all_patterns, is_made};
ghost use Rattle.leaf_match.specs.Bindings.{HasRisingPlaces, meaning, AreSuited, Tells, Reaches};
ghost use Rattle.leaf_match.specs.Contents.{IsFit, IsBodyAt, IsBoundBy, is_map, leaf_mentions};

use crate::bodies::match_leaf;
use crate::bound::Bound;
use crate::maps::match_map;
use crate::variables::{Variables, bind};
use k_terms::{Content, Memory, Sorts, Value};
use rule_terms::Body;
use std::alloc::Global;
use std::marker::Model;

/// What the variables of a rule stand for, by their numbers, as far as they are bound.
#[derive(Debug, Drop)]
pub struct Bindings<'a> {
    bounds: Vec<Option<Bound<'a>>>,
}

impl<'a> Model for Bindings<'a> {
    ghost use Rattle.std.specs.Coded.{codes};
    ghost use Rattle.k_terms.specs.contracts.value.Value as value;
    ghost use Rattle.leaf_match.specs.Bindings.{HaveRisingPlaces, Partial, partial_of};

    ghost Value = { Partial };

    ghost coded = { Prim.hlevel (codes, value.the_row.coded) };

    ghost view = { λ bindings. partial_of bindings.bounds.items };

    ghost invariant = { λ bindings. HaveRisingPlaces bindings.bounds.items };
}

impl<'a> Bindings<'a> {
    /// The bindings of a rule with these variables of which none is bound.
    pub fn free(alloc: Global, vars: &[u32]) -> Result<Bindings<'a>, Memory>
        ensures { IfOk result (λ bindings. bindings ≡ map (λ _. None) vars.now) }
    {
        let mut bounds = Vec::with_capacity(alloc, vars.len())?;
        for _sort in vars {
            bounds.push(None)?;
        }
        Ok(Bindings { bounds })
    }

    /// What the variable with a number stands for. `None` where it is not bound, or stands for a rest of cells.
    pub fn bound(&self, var: u32) -> Option<&Bound<'a>>
        ensures meaning { option_map meaning (option_copied result) ≡ option_and_then (λ known. known) (slice_get self.now var) }
        ensures rising { IfSome result (λ lent. HasRisingPlaces lent.now) }
    {
        match self.bounds.get(var as usize) {
            Some(Some(bound)) => Some(bound),
            _ => None,
        }
    }

    /// Binds the variable with a number, which may be bound already. `false` where it has no place, stands for another value, or
    /// is of another sort.
    pub(crate) fn bind(
        &mut self,
        alloc: Global,
        variables: &Variables<'_>,
        number: u32,
        bound: Bound<'a>,
    ) -> Result<bool, Memory>
        requires suited { AreSuited variables.now.sorts.now variables.now.vars.now self.old }
        requires rising { HasRisingPlaces bound }
        ensures suited { IfOk result (λ _. AreSuited variables.now.sorts.now variables.now.vars.now self.new) }
        ensures reaches { IfOk result (λ found. Reaches found self.old self.new (λ x. x == number)) }
        ensures tells { IfOk result (λ found. Tells variables.now.sorts.now variables.now.vars.now found self.old self.new
            (λ s. value_at s number ≡ Some (meaning bound.entry))) }
    {
        let found = bind(alloc, variables, number, bound, &mut self.bounds)?;
        Ok(found)
    }

    /// Matches one more body against a content, with the keys of the body's entries in their order: the variables that stand in
    /// it are bound. `false` where no substitution that agrees with what is bound makes the body the content. The keys of a map
    /// rise; its values may have any depth.
    pub fn match_body(
        &mut self,
        alloc: Global,
        variables: &Variables<'_>,
        body: &Body,
        content: &'a Content,
        keys: &[Value],
    ) -> Result<bool, Memory>
        requires suited { AreSuited variables.now.sorts.now variables.now.vars.now self.old }
        requires plain { IsTrue (all_patterns has_no_operator body.now && not (is_made body.now)) }
        requires fit { IsFit content.now }
        ensures suited { IfOk result (λ _. AreSuited variables.now.sorts.now variables.now.vars.now self.new) }
        ensures tells { IfOk result (λ found. Tells variables.now.sorts.now variables.now.vars.now found self.old self.new
            (IsBodyAt body.now content.now keys.now)) }
        ensures reaches { IfOk result (λ found. Reaches found self.old self.new (λ x. leaf_mentions x body.now)) }
    {
        if let Body::Map(patterns, rest) = body {
            let Content::Map(entries) = content else {
                return Ok(false);
            };
            let patterns = patterns.as_slice();
            let found = match_map(alloc, variables, patterns, *rest, entries, keys, self)?;
            return Ok(found);
        }
        if !keys.is_empty() {
            return Ok(false);
        }
        let found = match_leaf(alloc, variables, body, content, self)?;
        Ok(found)
    }
}

/// What the variables of a rule stand for where the body of one of its left cells is a content: its variables are `vars`, each
/// with its sort, and the entries of a map have these keys in the order of the body. `None` where no substitution that respects
/// the sorts makes the body the content with these keys.
pub fn bind_leaf<'a>(
    alloc: Global,
    sorts: &Sorts,
    vars: &[u32],
    body: &Body,
    content: &'a Content,
    keys: &[Value],
) -> Result<Option<Bindings<'a>>, Memory>
    requires plain { IsTrue (all_patterns has_no_operator body.now && not (is_made body.now)) }
    requires fit { IsFit content.now }
    ensures { IfOk result (IsBoundBy sorts.now vars.now body.now content.now keys.now) }
{
    let mut bindings = Bindings::free(alloc, vars)?;
    let variables = Variables { sorts, vars };
    if !bindings.match_body(alloc, &variables, body, content, keys)? {
        return Ok(None);
    }
    Ok(Some(bindings))
}
