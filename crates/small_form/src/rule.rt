ghost use Rattle.std.specs.Prelude.{◌≡◌, ℕ, ◌<◌, ◌≤◌, ◌^◌, List, ◌++◌, length, codes, IsTrue, IfSome, OnSome, IfOk, Some};
ghost use Rattle.std.specs.Option.{option_map};
ghost use Rattle.small_form.specs.declared.small.SmallRule.{SmallRule as Rule};
ghost use Rattle.std.specs.List.{list_all};
ghost use Rattle.small_form.specs.Pieces.{Reads};
ghost use Rattle.small_form.specs.Small.{is_variable as variable, is_applied as applied, is_sort, rule_pieces, labels_of, unplaced_rule, HaveLabels, IsSmallRule};

use crate::names::{are_different, is_variable, left_names, stand_in_order, typed_names};
use crate::reader::Reader;
use crate::small::{Production, SmallRule};
use crate::term::read_term;
use k_terms::{Many, Memory, Text};
use rule_terms::Pattern;
use std::alloc::Global;

fn are_variables(names: &[Text]) -> bool
    ensures { result ≡ list_all variable names.now }
{
    names.iter().all(|name| is_variable(name.as_slice()))
}

fn is_applied(pattern: &Pattern) -> bool
    ensures { result ≡ applied pattern.now }
{
    matches!(pattern, Pattern::Node(..))
}

/// Reads a rule. `at` is the byte of its word `rule` in the whole text.
pub fn read_rule(
    alloc: Global,
    productions: &[Production],
    sort: &[u8],
    at: usize,
    reader: &mut Reader,
) -> Result<Option<SmallRule>, Memory>
    ensures small { IfOk result (λ found. IfSome found (IsSmallRule productions.now)) }
    ensures read { IfOk result (λ found. IfSome found (λ rule.
        Reads (rule_pieces (labels_of productions.now) sort.now rule) reader.old reader.new)) }
    ensures shorter { IfOk result (λ found. OnSome found (length reader.new < length reader.old)) }
    ensures exact { (r : Rule) (pieces : List (List ℕ)) (rest : List ℕ) → HaveLabels productions.now → IsTrue (is_sort sort.now)
        → length reader.old ≤ 2 ^ 32 → IsSmallRule productions.now r
        → Reads (rule_pieces (labels_of productions.now) sort.now r ++ pieces) reader.old rest
        → IfOk result (λ found. (option_map unplaced_rule found ≡ Some (unplaced_rule r)) × Reads pieces reader.new rest) }
{
    if !reader.eat(b"rule") {
        return Ok(None);
    }
    let Some(names) = left_names(alloc, sort, reader.rest())? else {
        return Ok(None);
    };
    if !are_variables(names.as_slice()) {
        return Ok(None);
    }
    if !are_different(names.as_slice()) {
        return Ok(None);
    }
    let typed = typed_names(alloc, sort, names.as_slice())?;
    let Some(left) = read_term(alloc, productions, typed.as_slice(), reader)? else {
        return Ok(None);
    };
    if !is_applied(&left) {
        return Ok(None);
    }
    let in_order = stand_in_order(alloc, &left, names.len())?;
    if !in_order {
        return Ok(None);
    }
    if !reader.eat(b"=>") {
        return Ok(None);
    }
    let Some(right) = read_term(alloc, productions, names.as_slice(), reader)? else {
        return Ok(None);
    };
    Ok(Some(SmallRule {
        at,
        names: Many::from_vec(names),
        left,
        right,
    }))
}
