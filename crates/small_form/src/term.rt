ghost use Rattle.std.specs.Prelude.{◌≡◌, ℕ, ◌<◌, ◌≤◌, List, [], ◌∷◌, ◌++◌, length, map, codes, IsTrue, IfSome, IfNone, IfOk, Some, IsSomeAnd};
ghost use Rattle.std.specs.Bool.{OnTrue};
ghost use Rattle.std.specs.List.{list_all};
ghost use Rattle.small_form.specs.Pieces.{Reads};
ghost use Rattle.rule_terms.specs.declared.pattern.Pattern.{Pattern as Pat, Node as NodePat};
ghost use Rattle.small_form.specs.Small.{separated, at_number, labels_of, term_pieces, is_term, are_different, comma_before, AreVariables, HaveLabels};

use crate::reader::Reader;
use crate::small::Production;
use k_terms::{Many, Memory, Text};
use rule_terms::Pattern;
use std::alloc::Global;

/// Reads one of these variables, and gives its number.
fn read_variable(variables: &[Text], reader: &mut Reader) -> Option<u32>
    ensures known { IfSome result (λ x. x < length variables.now) }
    ensures read { IfSome result (λ x. Reads (at_number variables.now x ∷ []) reader.old reader.new) }
    ensures kept { IfNone result (reader.new ≡ reader.old) }
    ensures shorter { length reader.new ≤ length reader.old }
    ensures exact { (x : ℕ) (pieces : List (List ℕ)) (rest : List ℕ) → AreVariables variables.now → x < length variables.now
        → Reads (at_number variables.now x ∷ pieces) reader.old rest → (result ≡ Some x) × Reads pieces reader.new rest }
{
    for (i, variable) in variables.iter().enumerate() {
        let Ok(number) = u32::try_from(i) else {
            return None;
        };
        if reader.eat(variable.as_slice()) {
            return Some(number);
        }
    }
    None
}

/// The place of the production with a label, counted from 0.
fn find_label(productions: &[Production], label: &[u8]) -> Option<usize>
    ensures known { IfSome result (λ i. i < length productions.now) }
    ensures label { IfSome result (λ i. at_number (labels_of productions.now) i ≡ label.now) }
    ensures exact { (i : ℕ) → IsTrue (are_different (labels_of productions.now)) → i < length productions.now
        → at_number (labels_of productions.now) i ≡ label.now → result ≡ Some i }
{
    for (i, production) in productions.iter().enumerate() {
        if production.label.as_slice() == label {
            return Some(i);
        }
    }
    None
}

/// Reads the comma before an argument, unless it is the first.
fn read_comma(place: usize, reader: &mut Reader) -> bool
    ensures first { OnTrue result (place ≡ 0 → reader.new ≡ reader.old) }
    ensures later { OnTrue result (0 < place → Reads (codes "," ∷ []) reader.old reader.new) }
    ensures shorter { length reader.new ≤ length reader.old }
    ensures exact { (pieces : List (List ℕ)) (rest : List ℕ) → Reads (comma_before place ++ pieces) reader.old rest
        → IsTrue result × Reads pieces reader.new rest }
{
    if place == 0 {
        return true;
    }
    reader.eat(b",")
}

/// Reads a term of these productions and variables, each variable written as the list says.
#[cycle(terms)]
pub fn read_term(
    alloc: Global,
    productions: &[Production],
    variables: &[Text],
    reader: &mut Reader,
) -> Result<Option<Pattern>, Memory>
    ensures term { IfOk result (λ found. IfSome found (λ p. IsTrue (is_term productions.now (length variables.now) p))) }
    ensures read { IfOk result (λ found. IfSome found (λ p.
        Reads (term_pieces (labels_of productions.now) variables.now p) reader.old reader.new)) }
    ensures shorter { length reader.new ≤ length reader.old }
    ensures exact { (p : Pat) (pieces : List (List ℕ)) (rest : List ℕ) → HaveLabels productions.now → AreVariables variables.now
        → IsTrue (is_term productions.now (length variables.now) p)
        → Reads (term_pieces (labels_of productions.now) variables.now p ++ pieces) reader.old rest
        → IfOk result (λ found. (found ≡ Some p) × Reads pieces reader.new rest) }
{
    if let Some(variable) = read_variable(variables, reader) {
        return Ok(Some(Pattern::Var(variable)));
    }
    read_application(alloc, productions, variables, reader)
}

/// Reads a label with its arguments.
#[cycle(terms)]
fn read_application(
    alloc: Global,
    productions: &[Production],
    variables: &[Text],
    reader: &mut Reader,
) -> Result<Option<Pattern>, Memory>
    ensures term { IfOk result (λ found. IfSome found (λ p. IsTrue (is_term productions.now (length variables.now) p))) }
    ensures read { IfOk result (λ found. IfSome found (λ p.
        Reads (term_pieces (labels_of productions.now) variables.now p) reader.old reader.new)) }
    ensures shorter { length reader.new ≤ length reader.old }
    ensures exact { (n : ℕ) (ps : List Pat) (pieces : List (List ℕ)) (rest : List ℕ) → HaveLabels productions.now → AreVariables variables.now
        → IsTrue (is_term productions.now (length variables.now) (NodePat n ps))
        → Reads (term_pieces (labels_of productions.now) variables.now (NodePat n ps) ++ pieces) reader.old rest
        → IfOk result (λ found. (found ≡ Some (NodePat n ps)) × Reads pieces reader.new rest) }
{
    let Some(label) = reader.word() else {
        return Ok(None);
    };
    let Some(place) = find_label(productions, label) else {
        return Ok(None);
    };
    let Ok(number) = u32::try_from(place + 1) else {
        return Ok(None);
    };
    if !reader.eat(b"(") {
        return Ok(None);
    }
    let arity = productions[place].arity;
    let Some(arguments) = read_arguments(alloc, productions, variables, arity, reader)? else {
        return Ok(None);
    };
    if !reader.eat(b")") {
        return Ok(None);
    }
    Ok(Some(Pattern::Node(number, Many::from_vec(arguments))))
}

/// Reads so many terms with commas between.
#[cycle(terms)]
fn read_arguments(
    alloc: Global,
    productions: &[Production],
    variables: &[Text],
    count: usize,
    reader: &mut Reader,
) -> Result<Option<Vec<Pattern>>, Memory>
    ensures count { IfOk result (λ found. IfSome found (λ ps. length ps.items ≡ count)) }
    ensures terms { IfOk result (λ found. IfSome found (λ ps.
        IsTrue (list_all (is_term productions.now (length variables.now)) ps.items))) }
    ensures read { IfOk result (λ found. IfSome found (λ ps.
        Reads (separated (codes ",") (map (term_pieces (labels_of productions.now) variables.now) ps.items)) reader.old reader.new)) }
    ensures shorter { length reader.new ≤ length reader.old }
    ensures exact { (ps : List Pat) (pieces : List (List ℕ)) (rest : List ℕ) → HaveLabels productions.now → AreVariables variables.now
        → length ps ≡ count → IsTrue (list_all (is_term productions.now (length variables.now)) ps)
        → Reads (separated (codes ",") (map (term_pieces (labels_of productions.now) variables.now) ps) ++ pieces) reader.old rest
        → IfOk result (λ found. IsSomeAnd found (λ read. read.items ≡ ps) × Reads pieces reader.new rest) }
{
    let mut arguments = Vec::new(alloc);
    for i in 0..count {
        if !read_comma(i, reader) {
            return Ok(None);
        }
        match read_term(alloc, productions, variables, reader)? {
            Some(argument) => arguments.push(argument)?,
            None => return Ok(None),
        }
    }
    Ok(Some(arguments))
}
