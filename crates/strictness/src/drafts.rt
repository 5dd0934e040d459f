//! The two rules of a strict place.
ghost use Rattle.std.specs.Prelude.{◌≡◌, length, IfOk};
ghost use Rattle.strictness.specs.Drafts.{variables as all_of, others as others_of, sorts_of_variables, front as front_of, whole as whole_of, pulled as pulled_of, when_heated as heated_when, when_cooled as cooled_when, heating as heating_of, cooling as cooling_of};

use k_terms::{Many, Memory, sort};
use production_reader::Attrs;
use rule_terms::{Body, CellPat, Cond, Draft, Origin, Pattern};
use std::alloc::Global;

/// The variables of so many arguments.
fn variables(alloc: Global, count: u32) -> Result<Many<Pattern>, Memory>
    ensures { IfOk result (λ parts. parts ≡ all_of count) }
{
    let mut parts = Vec::new(alloc);
    for variable in 0..count {
        parts.push(Pattern::Var(variable))?;
    }
    Ok(Many::from_vec(parts))
}

/// The variables of all arguments but the one of a place.
fn others(alloc: Global, count: u32, place: u32) -> Result<Many<Pattern>, Memory>
    ensures { IfOk result (λ parts. parts ≡ others_of count place) }
{
    let mut parts = Vec::new(alloc);
    for variable in 0..count {
        if variable + 1 != place {
            parts.push(Pattern::Var(variable))?;
        }
    }
    Ok(Many::from_vec(parts))
}

/// The sorts of the variables: those of the arguments, and K for the rest.
fn variable_sorts(alloc: Global, sorts: &[u32]) -> Result<Many<u32>, Memory>
    ensures { IfOk result (λ all. all ≡ sorts_of_variables sorts.now) }
{
    let mut all = Vec::from_slice(alloc, sorts)?;
    all.push(sort::K)?;
    Ok(Many::from_vec(all))
}

/// How many arguments there are; more than a number counts are more than memory holds.
fn count_of(sorts: &[u32]) -> Result<u32, Memory>
    ensures { IfOk result (λ count. count ≡ length sorts.now) }
{
    match u32::try_from(sorts.len()) {
        Ok(count) => Ok(count),
        Err(_) => Err(Memory),
    }
}

/// A cell with these parts at the front of its sequence.
fn front(alloc: Global, cell: u32, rest: u32, parts: Vec<Pattern>) -> Result<Many<CellPat>, Memory>
    ensures { IfOk result (λ cells. cells ≡ front_of cell rest parts.items) }
{
    let mut cells = Vec::new(alloc);
    cells.push(CellPat {
        cell,
        mark: 0,
        body: Body::Seq(Many::from_vec(parts), Some(rest)),
    })?;
    Ok(Many::from_vec(cells))
}

/// The production with its arguments.
fn whole(alloc: Global, prod: u32, count: u32) -> Result<Vec<Pattern>, Memory>
    ensures { IfOk result (λ parts. parts.items ≡ whole_of prod count) }
{
    let mut parts = Vec::new(alloc);
    parts.push(Pattern::Node(prod, variables(alloc, count)?))?;
    Ok(parts)
}

/// The argument of a place, and then the production with a hole there.
fn pulled(alloc: Global, prod: u32, count: u32, place: u32) -> Result<Vec<Pattern>, Memory>
    ensures { IfOk result (λ parts. parts.items ≡ pulled_of prod count place) }
{
    let mut parts = Vec::new(alloc);
    parts.push(Pattern::Var(place.saturating_sub(1)))?;
    parts.push(Pattern::Freezer(prod, place, others(alloc, count, place)?))?;
    Ok(parts)
}

/// That the argument of a place is no result, and with `seqstrict` that those before are results.
fn when_heated(alloc: Global, attrs: &Attrs, place: u32) -> Result<Many<Cond>, Memory>
    ensures { IfOk result (λ when. when ≡ heated_when attrs.now place) }
{
    let variable = place.saturating_sub(1);
    let mut when = Vec::new(alloc);
    when.push(Cond::NotSort(variable, sort::KRESULT))?;
    if attrs.seqstrict {
        for earlier in 0..variable {
            when.push(Cond::IsSort(earlier, sort::KRESULT))?;
        }
    }
    Ok(Many::from_vec(when))
}

/// That the argument of a place is a result.
fn when_cooled(alloc: Global, place: u32) -> Result<Many<Cond>, Memory>
    ensures { IfOk result (λ when. when ≡ cooled_when place) }
{
    let mut when = Vec::new(alloc);
    when.push(Cond::IsSort(place.saturating_sub(1), sort::KRESULT))?;
    Ok(Many::from_vec(when))
}

/// The rule that pulls the argument of a place out of a production.
pub(crate) fn heating(
    alloc: Global,
    cell: u32,
    prod: u32,
    attrs: &Attrs,
    sorts: &[u32],
    place: u32,
) -> Result<Draft, Memory>
    ensures { IfOk result (λ draft. draft ≡ heating_of cell prod attrs.now sorts.now place) }
{
    let count = count_of(sorts)?;
    Ok(Draft {
        origin: Origin::Heat { prod, place },
        vars: variable_sorts(alloc, sorts)?,
        left: front(alloc, cell, count, whole(alloc, prod, count)?)?,
        right: front(alloc, cell, count, pulled(alloc, prod, count, place)?)?,
        when: when_heated(alloc, attrs, place)?,
    })
}

/// The rule that puts a result back at its place.
pub(crate) fn cooling(
    alloc: Global,
    cell: u32,
    prod: u32,
    sorts: &[u32],
    place: u32,
) -> Result<Draft, Memory>
    ensures { IfOk result (λ draft. draft ≡ cooling_of cell prod sorts.now place) }
{
    let count = count_of(sorts)?;
    Ok(Draft {
        origin: Origin::Cool { prod, place },
        vars: variable_sorts(alloc, sorts)?,
        left: front(alloc, cell, count, pulled(alloc, prod, count, place)?)?,
        right: front(alloc, cell, count, whole(alloc, prod, count)?)?,
        when: when_cooled(alloc, place)?,
    })
}
