ghost use Rattle.std.specs.Prelude.{◌≡◌, ℕ, List, map, IfSome, IfOk, IsTrue, IsSome, Some};
ghost use Rattle.std.specs.List.{list_all};
ghost use Rattle.k_terms.specs.declared.value.Value.{Value as Val};
ghost use Rattle.small_form.specs.declared.small.Production.{Production as Prod};
ghost use Rattle.small_form.specs.Small.{is_term, HaveLabels};
ghost use Rattle.small_form.specs.Program.{term_of, IsTermText};

use crate::reader::Reader;
use crate::small::Production;
use crate::term::read_term;
use k_terms::{Many, Memory, Value, depth};
use rule_terms::Pattern;
use std::alloc::Global;

/// The greatest length of a program, in bytes.
pub const PROGRAM_LIMIT: usize = 4096;

/// The greatest depth of a program's value.
pub const DEPTH_LIMIT: u32 = 400;

/// The value that a term is, where it has productions alone.
#[cycle(values)]
fn value_of(alloc: Global, pattern: &Pattern) -> Result<Option<Value>, Memory>
    ensures term { IfOk result (λ found. IfSome found (λ v. term_of v ≡ pattern.now)) }
    ensures ground { (productions : List Prod) → IsTrue (is_term productions 0 pattern.now) → IfOk result IsSome }
{
    let Pattern::Node(production, parts) = pattern else {
        return Ok(None);
    };
    let Some(values) = values_of(alloc, parts.as_slice())? else {
        return Ok(None);
    };
    Ok(Some(Value::Node(*production, Many::from_vec(values))))
}

#[cycle(values)]
fn values_of(alloc: Global, patterns: &[Pattern]) -> Result<Option<Vec<Value>>, Memory>
    ensures terms { IfOk result (λ found. IfSome found (λ vs. map term_of vs.items ≡ patterns.now)) }
    ensures ground { (productions : List Prod) → IsTrue (list_all (is_term productions 0) patterns.now) → IfOk result IsSome }
{
    let mut values = Vec::new(alloc);
    for pattern in patterns {
        match value_of(alloc, pattern)? {
            Some(value) => values.push(value)?,
            None => return Ok(None),
        }
    }
    Ok(Some(values))
}

/// Reads a program under these productions; `None` where the text is none.
pub fn read_program(
    alloc: Global,
    productions: &[Production],
    text: &[u8],
) -> Result<Option<Value>, Memory>
    ensures read { IfOk result (λ found. IfSome found (IsTermText productions.now text.now)) }
    ensures exact { (v : Val) → HaveLabels productions.now → IsTermText productions.now text.now v → IfOk result (λ found. found ≡ Some v) }
{
    if text.len() > PROGRAM_LIMIT {
        return Ok(None);
    }
    let mut reader = Reader::new(text);
    let Some(term) = read_term(alloc, productions, &[], &mut reader)? else {
        return Ok(None);
    };
    if !reader.is_finished() {
        return Ok(None);
    }
    let Some(value) = value_of(alloc, &term)? else {
        return Ok(None);
    };
    if depth(&value) > DEPTH_LIMIT {
        return Ok(None);
    }
    Ok(Some(value))
}
