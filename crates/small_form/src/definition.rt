ghost use Rattle.std.specs.Prelude.{◌≡◌, ℕ, ◌+◌, ◌<◌, ◌≤◌, List, [], ◌∷◌, ◌++◌, length, map, codes, IsTrue, IfSome, OnSome, IfOk, replicate, ◌^◌, Some, IsSomeAnd};
ghost use Rattle.std.specs.Option.{option_map};
ghost use Rattle.small_form.specs.declared.small.Small.{Small as Definition};
ghost use Rattle.small_form.specs.declared.small.Production.{Production as Prod};
ghost use Rattle.small_form.specs.declared.small.SmallRule.{SmallRule as Rule};
ghost use Rattle.std.specs.Bool.{OnTrue};
ghost use Rattle.std.specs.List.{list_all, AllByRecursion};
ghost use Rattle.small_form.specs.Pieces.{is_word, is_solid, Reads};
ghost use Rattle.small_form.specs.Small.{is_label as label, is_sort as sort_name, separated, are_different as different, labels_of, production_pieces, configuration_pieces, rules_pieces, head_pieces, comma_before, unplaced, unplaced_rule, HaveLabels, IsSmallRule, IsSmallText};

use crate::names::{are_different, is_label, is_sort};
use crate::reader::Reader;
use crate::rule::read_rule;
use crate::small::{Production, Small, SmallRule};
use k_terms::{Many, Memory, Text, copy_text};
use std::alloc::Global;

/// The greatest length of a definition, in bytes.
pub const DEFINITION_LIMIT: usize = 4096;

fn text_of(alloc: Global, bytes: &[u8]) -> Result<Text, Memory>
    ensures ok { IfOk result (λ text. text ≡ bytes.now) }
{
    Ok(Many::from_vec(Vec::from_slice(alloc, bytes)?))
}

/// Reads the comma before a sort, unless it is the first, and the sort.
fn read_next_sort(sort: &[u8], place: usize, reader: &mut Reader) -> bool
    ensures first { OnTrue result (place ≡ 0 → Reads (sort.now ∷ []) reader.old reader.new) }
    ensures later { OnTrue result (0 < place → Reads (codes "," ∷ sort.now ∷ []) reader.old reader.new) }
    ensures shorter { length reader.new ≤ length reader.old }
    ensures sort_shorter { OnTrue result (length sort.now + length reader.new ≤ length reader.old) }
    ensures exact { (pieces : List (List ℕ)) (rest : List ℕ) → IsTrue (is_solid sort.now)
        → Reads (comma_before place ++ sort.now ∷ pieces) reader.old rest → IsTrue result × Reads pieces reader.new rest }
{
    if place == 0 {
        return reader.eat(sort);
    }
    if !reader.eat(b",") {
        return false;
    }
    reader.eat(sort)
}

/// Reads the sorts of a production's arguments and the closing parenthesis, and gives their number.
fn read_sorts(sort: &[u8], reader: &mut Reader) -> Option<usize>
    ensures read { IfSome result (λ count.
        Reads (separated (codes ",") (replicate count (sort.now ∷ [])) ++ codes ")" ∷ []) reader.old reader.new) }
    ensures shorter { length reader.new ≤ length reader.old }
    ensures exact { (count : ℕ) (pieces : List (List ℕ)) (rest : List ℕ) → IsTrue (sort_name sort.now) → length reader.old ≤ 2 ^ 32
        → Reads (separated (codes ",") (replicate count (sort.now ∷ [])) ++ codes ")" ∷ pieces) reader.old rest
        → (result ≡ Some count) × Reads pieces reader.new rest }
{
    for count in 0..usize::MAX {
        if reader.eat(b")") {
            return Some(count);
        }
        if !read_next_sort(sort, count, reader) {
            return None;
        }
    }
    None
}

fn read_production(
    alloc: Global,
    sort: &[u8],
    reader: &mut Reader,
) -> Result<Option<Production>, Memory>
    ensures label { IfOk result (λ found. IfSome found (λ production. IsTrue (label production.label))) }
    ensures read { IfOk result (λ found. IfSome found (λ production.
        Reads (production_pieces sort.now production) reader.old reader.new)) }
    ensures shorter { length reader.new ≤ length reader.old }
    ensures exact { (p : Prod) (pieces : List (List ℕ)) (rest : List ℕ) → IsTrue (sort_name sort.now) → length reader.old ≤ 2 ^ 32
        → IsTrue (label p.label) → Reads (production_pieces sort.now p ++ pieces) reader.old rest
        → IfOk result (λ found. (found ≡ Some p) × Reads pieces reader.new rest) }
{
    let Some(label) = reader.word() else {
        return Ok(None);
    };
    if !is_label(label) {
        return Ok(None);
    }
    if !reader.eat(b"(") {
        return Ok(None);
    }
    let Some(arity) = read_sorts(sort, reader) else {
        return Ok(None);
    };
    let label = text_of(alloc, label)?;
    Ok(Some(Production { label, arity }))
}

/// Reads the productions of the one syntax sentence, with a mark between.
fn read_productions(
    alloc: Global,
    sort: &[u8],
    reader: &mut Reader,
) -> Result<Option<Vec<Production>>, Memory>
    ensures some { IfOk result (λ found. IfSome found (λ ps. 0 < length ps.items)) }
    ensures labels { IfOk result (λ found. IfSome found (λ ps. IsTrue (list_all label (labels_of ps.items)))) }
    ensures read { IfOk result (λ found. IfSome found (λ ps.
        Reads (separated (codes "|") (map (production_pieces sort.now) ps.items)) reader.old reader.new)) }
    ensures shorter { length reader.new ≤ length reader.old }
    ensures exact { (ps : List Prod) (pieces : List (List ℕ)) (rest : List ℕ) → IsTrue (sort_name sort.now) → length reader.old ≤ 2 ^ 32
        → 0 < length ps → IsTrue (list_all label (labels_of ps))
        → Reads (separated (codes "|") (map (production_pieces sort.now) ps) ++ codes "configuration" ∷ pieces) reader.old rest
        → IfOk result (λ found. IsSomeAnd found (λ read. read.items ≡ ps) × Reads (codes "configuration" ∷ pieces) reader.new rest) }
{
    let mut productions = Vec::new(alloc);
    let Some(first) = read_production(alloc, sort, reader)? else {
        return Ok(None);
    };
    productions.push(first)?;
    loop {
        if !reader.eat(b"|") {
            return Ok(Some(productions));
        }
        match read_production(alloc, sort, reader)? {
            Some(next) => productions.push(next)?,
            None => return Ok(None),
        }
    }
}

/// Reads the mark before the productions.
fn read_becomes(reader: &mut Reader) -> bool
    ensures read { OnTrue result (Reads (codes ":" ∷ codes ":" ∷ codes "=" ∷ []) reader.old reader.new) }
    ensures shorter { length reader.new ≤ length reader.old }
    ensures exact { (pieces : List (List ℕ)) (rest : List ℕ) → Reads (codes ":" ∷ codes ":" ∷ codes "=" ∷ pieces) reader.old rest
        → IsTrue result × Reads pieces reader.new rest }
{
    if !reader.eat(b":") {
        return false;
    }
    if !reader.eat(b":") {
        return false;
    }
    reader.eat(b"=")
}

/// Reads the module's head, up to the mark before the productions: its name and the sort.
fn read_head<'a>(reader: &mut Reader<'a>) -> Option<(&'a [u8], &'a [u8])>
    ensures name { IfSome result (λ head. IsTrue (is_word head.0.now)) }
    ensures sort { IfSome result (λ head. IsTrue (sort_name head.1.now)) }
    ensures read { IfSome result (λ head. Reads (head_pieces head.0.now head.1.now) reader.old reader.new) }
    ensures shorter { length reader.new ≤ length reader.old }
    ensures exact { (name sort : List ℕ) (pieces : List (List ℕ)) (rest : List ℕ) → IsTrue (is_word name) → IsTrue (sort_name sort)
        → Reads (head_pieces name sort ++ pieces) reader.old rest
        → IsSomeAnd result (λ head. (head.0.now ≡ name) × (head.1.now ≡ sort)) × Reads pieces reader.new rest }
{
    if !reader.eat(b"module") {
        return None;
    }
    let name = reader.word()?;
    if !reader.eat(b"syntax") {
        return None;
    }
    let sort = reader.word()?;
    if !is_sort(sort) {
        return None;
    }
    if !read_becomes(reader) {
        return None;
    }
    Some((name, sort))
}

/// Reads the configuration of the one cell `k`.
fn read_configuration(alloc: Global, sort: &[u8], reader: &mut Reader) -> Result<bool, Memory>
    ensures read { IfOk result (λ found. OnTrue found (Reads (configuration_pieces sort.now) reader.old reader.new)) }
    ensures shorter { length reader.new ≤ length reader.old }
    ensures exact { (pieces : List (List ℕ)) (rest : List ℕ) → Reads (configuration_pieces sort.now ++ pieces) reader.old rest
        → IfOk result (λ found. IsTrue found × Reads pieces reader.new rest) }
{
    let mut program = Vec::from_slice(alloc, b"$PGM:")?;
    program.extend_from_slice(sort)?;
    if !reader.eat(b"configuration") {
        return Ok(false);
    }
    if !reader.eat(b"<k>") {
        return Ok(false);
    }
    if !reader.eat(program.as_slice()) {
        return Ok(false);
    }
    if !reader.eat(b"</k>") {
        return Ok(false);
    }
    Ok(true)
}

/// Reads the rules and the end of the module. `total` is the length of the whole text, in bytes.
fn read_rules(
    alloc: Global,
    productions: &[Production],
    sort: &[u8],
    total: usize,
    reader: &mut Reader,
) -> Result<Option<Vec<SmallRule>>, Memory>
    ensures small { IfOk result (λ found. IfSome found (λ rules. AllByRecursion (IsSmallRule productions.now) rules.items)) }
    ensures read { IfOk result (λ found. IfSome found (λ rules.
        Reads (rules_pieces (labels_of productions.now) sort.now rules.items ++ codes "endmodule" ∷ []) reader.old reader.new)) }
    ensures exact { (rules : List Rule) (pieces : List (List ℕ)) (rest : List ℕ) → HaveLabels productions.now → IsTrue (sort_name sort.now)
        → length reader.old ≤ 2 ^ 32 → AllByRecursion (IsSmallRule productions.now) rules
        → Reads (rules_pieces (labels_of productions.now) sort.now rules ++ codes "endmodule" ∷ pieces) reader.old rest
        → IfOk result (λ found. IsSomeAnd found (λ read. map unplaced_rule read.items ≡ map unplaced_rule rules) × Reads pieces reader.new rest) }
{
    let mut rules = Vec::new(alloc);
    loop {
        if reader.eat(b"endmodule") {
            return Ok(Some(rules));
        }
        let at = total.saturating_sub(reader.rest().len());
        match read_rule(alloc, productions, sort, at, reader)? {
            Some(rule) => rules.push(rule)?,
            None => return Ok(None),
        }
    }
}

/// Whether no two productions have one label.
fn have_different_labels(alloc: Global, productions: &[Production]) -> Result<bool, Memory>
    ensures ok { IfOk result (λ answer. answer ≡ different (labels_of productions.now)) }
{
    let mut labels = Vec::new(alloc);
    for production in productions {
        labels.push(copy_text(alloc, &production.label)?)?;
    }
    Ok(are_different(labels.as_slice()))
}

/// Reads a definition of the small form; `None` where the text is none.
pub fn read_definition(alloc: Global, text: &[u8]) -> Result<Option<Small>, Memory>
    ensures read { IfOk result (λ found. IfSome found (IsSmallText text.now)) }
    ensures exact { (d : Definition) → IsSmallText text.now d → IfOk result (λ found. option_map unplaced found ≡ Some (unplaced d)) }
{
    let mut reader = Reader::new(text);
    if text.len() > DEFINITION_LIMIT {
        return Ok(None);
    }
    let Some((name, sort)) = read_head(&mut reader) else {
        return Ok(None);
    };
    let Some(productions) = read_productions(alloc, sort, &mut reader)? else {
        return Ok(None);
    };
    let different = have_different_labels(alloc, productions.as_slice())?;
    if !different {
        return Ok(None);
    }
    let configured = read_configuration(alloc, sort, &mut reader)?;
    if !configured {
        return Ok(None);
    }
    let Some(rules) = read_rules(alloc, productions.as_slice(), sort, text.len(), &mut reader)?
    else {
        return Ok(None);
    };
    if !reader.is_finished() {
        return Ok(None);
    }
    Ok(Some(Small {
        name: text_of(alloc, name)?,
        sort: text_of(alloc, sort)?,
        productions: Many::from_vec(productions),
        rules: Many::from_vec(rules),
    }))
}
