//! The contents that the bodies of right cells build.
ghost use Rattle.std.specs.Prelude.{◌≡◌, IfOk};
ghost use Rattle.std.specs.Option.{option_map, option_and_then};
ghost use Rattle.k_terms.specs.Operators.{as_entries};
ghost use Rattle.k_terms.specs.declared.value.Content.TheVariants.{Seq as SeqContent, Map as MapContent, List as ListContent, One as OneContent};
ghost use Rattle.rule_terms.specs.declared.pattern.Body.{Seq, Map, List as Listed};
ghost use Rattle.rule_terms.specs.Substitution.{rest_of};
ghost use Rattle.rule_terms.specs.Eval.{eval_entries};
ghost use Rattle.rule_terms.specs.Fill.{put_new as put_each, content_from, content_of};
ghost use Rattle.right_sides.specs.Bound.{IsUnder};

use crate::building::joined;
use crate::entries::put_new;
use crate::evaluation::{evaluate, evaluate_all, evaluate_entries};
use crate::variables::{list_rest, map_rest, sequence_rest};
use k_terms::{Content, Memory, Value};
use leaf_match::Bindings;
use rule_terms::{Body, Pattern};
use std::alloc::Global;

/// A value as the whole content of a cell.
fn whole_content(value: Value) -> Content
    ensures { result ≡ content_from value }
{
    match value {
        Value::Seq(items) => Content::Seq(items),
        Value::Map(entries) => Content::Map(entries),
        Value::List(members) => Content::List(members),
        _ => Content::One(value),
    }
}

/// The content of a sequence's cell.
fn sequence_content(
    alloc: Global,
    bindings: &Bindings<'_>,
    parts: &[Pattern],
    rest: Option<u32>,
) -> Result<Option<Content>, Memory>
    ensures { IfOk result (IsUnder bindings.now (content_of (Seq parts.now rest))) }
{
    let front = evaluate_all(alloc, bindings, parts)?;
    let back = sequence_rest(alloc, bindings, rest)?;
    match joined(front, back)? {
        Some(items) => Ok(Some(Content::Seq(items))),
        None => Ok(None),
    }
}

/// The content of a map's cell.
fn map_content(
    alloc: Global,
    bindings: &Bindings<'_>,
    entries: &[(Pattern, Pattern)],
    rest: Option<u32>,
) -> Result<Option<Content>, Memory>
    ensures { IfOk result (IsUnder bindings.now (content_of (Map entries.now rest))) }
{
    let Some(news) = evaluate_entries(alloc, bindings, entries)? else {
        return Ok(None);
    };
    let Some(others) = map_rest(alloc, bindings, rest)? else {
        return Ok(None);
    };
    match put_new(news, others)? {
        Some(map) => Ok(Some(Content::Map(map))),
        None => Ok(None),
    }
}

/// The content of a list's cell.
fn list_content(
    alloc: Global,
    bindings: &Bindings<'_>,
    before: &[Pattern],
    rest: Option<u32>,
    after: &[Pattern],
) -> Result<Option<Content>, Memory>
    ensures { IfOk result (IsUnder bindings.now (content_of (Listed before.now rest after.now))) }
{
    let front = evaluate_all(alloc, bindings, before)?;
    let middle = list_rest(alloc, bindings, rest)?;
    let back = evaluate_all(alloc, bindings, after)?;
    match joined(joined(front, middle)?, back)? {
        Some(members) => Ok(Some(Content::List(members))),
        None => Ok(None),
    }
}

/// The content of a cell of a single value.
fn single_content(value: Option<Value>) -> Option<Content>
    ensures { result ≡ option_map OneContent value }
{
    Some(Content::One(value?))
}

/// The content that an expression makes as a whole.
fn made_content(value: Option<Value>) -> Option<Content>
    ensures { result ≡ option_map content_from value }
{
    Some(whole_content(value?))
}

/// The content of a right cell with this body. `None` where an expression in it is undefined, a rest is of another kind, or a
/// key of a map stands twice.
pub fn content(
    alloc: Global,
    bindings: &Bindings<'_>,
    body: &Body,
) -> Result<Option<Content>, Memory>
    ensures { IfOk result (IsUnder bindings.now (content_of body.now)) }
{
    Ok(match body {
        Body::Cells(_, _) => Some(Content::Cells),
        Body::Seq(parts, rest) => sequence_content(alloc, bindings, parts.as_slice(), *rest)?,
        Body::Map(entries, rest) => map_content(alloc, bindings, entries.as_slice(), *rest)?,
        Body::List(before, rest, after) => {
            list_content(alloc, bindings, before.as_slice(), *rest, after.as_slice())?
        }
        Body::One(pattern) => single_content(evaluate(alloc, bindings, pattern)?),
        Body::Made(pattern) => made_content(evaluate(alloc, bindings, pattern)?),
    })
}
