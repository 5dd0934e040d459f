ghost use Rattle.std.specs.Prelude.{◌≡◌, ℕ, ◌<◌, ◌≤◌, List, [], ◌∷◌, ◌++◌, ◌↔◌, length, map, codes, IsTrue, IfOk, OnOk, IfSome, OnSome, IsSomeAnd, Option};
ghost use Rattle.std.specs.Bool.{OnTrue};
ghost use Rattle.std.specs.Option.{option_copied, option_to_list};
ghost use Rattle.small_form.specs.Pieces.{Reads};
ghost use Rattle.std.specs.List.{list_all, list_any, flat_map};
ghost use Rattle.small_form.specs.Small.{same_text, is_among as among, are_different as different, reserved_words, built_in_sorts, is_label as label, is_variable as variable, is_sort as sort_name, typed, variables_of, numbers_from, IsLeftPiece, HasNames};

use crate::reader::{Reader, is_capital, is_small, is_word};
use k_terms::{Many, Memory, Text};
use rule_terms::Pattern;
use std::alloc::Global;

/// Whether a text is one of these.
fn is_among(texts: &[&str], text: &[u8]) -> bool
    ensures { result ≡ list_any (λ t. same_text text.now t.now) texts.now }
{
    texts.iter().any(|other| text == other.as_bytes())
}

fn is_reserved(text: &[u8]) -> bool
    ensures { result ≡ among reserved_words text.now }
{
    is_among(
        &[
            "module",
            "endmodule",
            "imports",
            "syntax",
            "configuration",
            "rule",
            "when",
            "requires",
            "true",
            "false",
        ],
        text,
    )
}

fn is_built_in(text: &[u8]) -> bool
    ensures { result ≡ among built_in_sorts text.now }
{
    is_among(
        &[
            "K", "KItem", "KResult", "Int", "Bool", "String", "Id", "Map", "List", "Bag",
        ],
        text,
    )
}

/// Whether a text can be a label: a word that begins with a small letter and is not reserved.
pub fn is_label(text: &[u8]) -> bool
    ensures { result ≡ label text.now }
{
    match text.first() {
        Some(byte) => is_word(text) && is_small(*byte) && !is_reserved(text),
        None => false,
    }
}

/// Whether a text can be a variable: a word that begins with a capital.
pub fn is_variable(text: &[u8]) -> bool
    ensures { result ≡ variable text.now }
{
    match text.first() {
        Some(byte) => is_word(text) && is_capital(*byte),
        None => false,
    }
}

/// Whether a text can be the sort: a word that begins with a capital and is no built-in sort.
pub fn is_sort(text: &[u8]) -> bool
    ensures { result ≡ sort_name text.now }
{
    is_variable(text) && !is_built_in(text)
}

/// Whether a text stands in a list of texts.
fn has_text(texts: &[Text], text: &[u8]) -> bool
    ensures { result ≡ among texts.now text.now }
{
    texts.iter().any(|other| text == other.as_slice())
}

/// Whether no text stands twice.
pub fn are_different(texts: &[Text]) -> bool
    ensures { result ≡ different texts.now }
{
    let mut rest = texts;
    while let Some((first, others)) = rest.split_first() {
        if has_text(others, first.as_slice()) {
            return false;
        }
        rest = others;
    }
    true
}

/// Each name with a colon and the sort after it.
pub fn typed_names(alloc: Global, sort: &[u8], names: &[Text]) -> Result<Vec<Text>, Memory>
    ensures ok { IfOk result (λ texts. texts.items ≡ map (typed sort.now) names.now) }
{
    let mut texts = Vec::new(alloc);
    for name in names {
        let mut text = Vec::from_slice(alloc, name.as_slice())?;
        text.push(b':')?;
        text.extend_from_slice(sort)?;
        texts.push(Many::from_vec(text))?;
    }
    Ok(texts)
}

/// Reads a parenthesis or a comma.
fn read_mark(reader: &mut Reader) -> bool
    ensures shorter { OnTrue result (length reader.new < length reader.old) }
    ensures exact { (piece : List ℕ) (pieces : List (List ℕ)) (rest : List ℕ) → IsTrue (among (codes "(" ∷ codes "," ∷ codes ")" ∷ []) piece)
        → Reads (piece ∷ pieces) reader.old rest → IsTrue result × Reads pieces reader.new rest }
{
    if reader.eat(b"(") {
        return true;
    }
    if reader.eat(b",") {
        return true;
    }
    reader.eat(b")")
}

/// Reads the next piece of a rule's left side, and gives the name where it is a variable with its sort; the outer `None`
/// where no such piece stands.
fn left_piece<'a>(sort: &[u8], reader: &mut Reader<'a>) -> Option<Option<&'a [u8]>>
    ensures shorter { OnSome result (length reader.new < length reader.old) }
    ensures exact { (piece : List ℕ) (name : Option (List ℕ)) (pieces : List (List ℕ)) (rest : List ℕ) → IsTrue (sort_name sort.now)
        → IsLeftPiece sort.now piece name → Reads (piece ∷ pieces) reader.old rest
        → IsSomeAnd result (λ found. option_copied found ≡ name) × Reads pieces reader.new rest }
{
    let Some(word) = reader.word() else {
        return read_mark(reader).then_some(None);
    };
    if !is_variable(word) {
        return Some(None);
    }
    if !reader.eat(b":") {
        return None;
    }
    if !reader.eat(sort) {
        return None;
    }
    Some(Some(word))
}

/// Adds the name, if there is one.
fn push_name(alloc: Global, names: &mut Vec<Text>, name: Option<&[u8]>) -> Result<(), Memory>
    ensures ok { OnOk result (names.new.items ≡ names.old.items ++ option_to_list (option_copied name.entry)) }
{
    if let Some(bytes) = name {
        names.push(Many::from_vec(Vec::from_slice(alloc, bytes)?))?;
    }
    Ok(())
}

/// The names of the variables of a rule's left side, which stands at the front of a text, up to the arrow.
pub fn left_names(alloc: Global, sort: &[u8], text: &[u8]) -> Result<Option<Vec<Text>>, Memory>
    ensures few { IfOk result (λ found. IfSome found (λ names. length names.items ≤ length text.now)) }
    ensures exact { (left : List (List ℕ)) (names : List (List ℕ)) (pieces : List (List ℕ)) (rest : List ℕ) → IsTrue (sort_name sort.now)
        → HasNames sort.now left names → Reads (left ++ codes "=>" ∷ pieces) text.now rest
        → IfOk result (λ found. IsSomeAnd found (λ read. read.items ≡ names)) }
{
    let mut names = Vec::new(alloc);
    let mut reader = Reader::new(text);
    loop {
        if reader.eat(b"=>") {
            return Ok(Some(names));
        }
        match left_piece(sort, &mut reader) {
            Some(name) => push_name(alloc, &mut names, name)?,
            None => return Ok(None),
        }
    }
}

/// Adds the variables of a term, in the order in which they stand.
#[cycle(variables)]
fn push_variables(pattern: &Pattern, numbers: &mut Vec<u32>) -> Result<(), Memory>
    ensures ok { OnOk result (numbers.new.items ≡ numbers.old.items ++ variables_of pattern.now) }
{
    match pattern {
        Pattern::Var(x) => {
            numbers.push(*x)?;
            Ok(())
        }
        Pattern::Node(_, arguments) => push_all_variables(arguments.as_slice(), numbers),
        _ => Ok(()),
    }
}

#[cycle(variables)]
fn push_all_variables(patterns: &[Pattern], numbers: &mut Vec<u32>) -> Result<(), Memory>
    ensures ok { OnOk result (numbers.new.items ≡ numbers.old.items ++ flat_map variables_of patterns.now) }
{
    for pattern in patterns {
        push_variables(pattern, numbers)?;
    }
    Ok(())
}

/// Whether a list is the numbers from 0 on.
fn counts_up(numbers: &[u32]) -> bool
    ensures { IsTrue result ↔ (numbers.now ≡ numbers_from 0 (length numbers.now)) }
{
    for (i, number) in numbers.iter().enumerate() {
        if *number as usize != i {
            return false;
        }
    }
    true
}

/// Whether each of so many variables stands once in a term, numbered in the order in which they stand.
pub fn stand_in_order(alloc: Global, pattern: &Pattern, count: usize) -> Result<bool, Memory>
    ensures ok { IfOk result (λ answer. IsTrue answer ↔ (variables_of pattern.now ≡ numbers_from 0 count)) }
{
    let mut numbers = Vec::new(alloc);
    push_variables(pattern, &mut numbers)?;
    if numbers.len() != count {
        return Ok(false);
    }
    Ok(counts_up(numbers.as_slice()))
}
