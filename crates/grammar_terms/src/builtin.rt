//! The builtin productions of grammars for rules.
ghost use Rattle.std.specs.Prelude.{◌≡◌, IfOk, true, false, slice_get};
ghost use Rattle.grammar_terms.specs.Builtins.{attrs_of as attrs_with, binary_items as items_between, binary as binary_form, comparison as comparison_form, call as call_form, in_keys as in_keys_form, negation as negation_form, set_key as set_key_form, get_key as get_key_form, parentheses as parentheses_form, operator_form as form_of, operators};

use crate::production::Part;
use k_terms::{Many, Memory, Op, Text, sort};
use production_reader::{Attrs, Strict};
use std::alloc::Global;

/// How a builtin production is written. Its sentence and its group are counted from the first ones behind those of the
/// declared productions.
#[derive(Debug, Drop)]
pub struct Builtin {
    /// The sort that it is a production of.
    pub sort: u32,
    /// Its sentence.
    pub sentence: u32,
    /// Its group.
    pub group: u32,
    /// Its items.
    pub items: Many<Part>,
    /// Its attributes.
    pub attrs: Attrs,
}

/// The operators in the order of their productions.
pub(crate) const OPERATORS: [Op; 24] = [
    Op::MulInt,
    Op::DivInt,
    Op::ModInt,
    Op::AddInt,
    Op::SubInt,
    Op::JoinString,
    Op::LtInt,
    Op::LeInt,
    Op::GtInt,
    Op::GeInt,
    Op::EqInt,
    Op::NeInt,
    Op::EqK,
    Op::NeK,
    Op::InKeys,
    Op::Not,
    Op::And,
    Op::Or,
    Op::SetKey,
    Op::GetKey,
    Op::SizeMap,
    Op::SizeList,
    Op::LengthString,
    Op::IntToString,
];

/// The operator at a place among all.
pub(crate) fn operator_at(place: usize) -> Option<Op>
    ensures { result ≡ slice_get operators place }
{
    op_at(&OPERATORS, place)
}

fn op_at(ops: &[Op], place: usize) -> Option<Op>
    ensures { result ≡ slice_get ops.now place }
{
    match ops.get(place) {
        Some(op) => Some(*op),
        None => None,
    }
}

fn text_of(alloc: Global, bytes: &[u8]) -> Result<Text, Memory>
    ensures { IfOk result (λ text. text ≡ bytes.now) }
{
    Ok(Many::from_vec(Vec::from_slice(alloc, bytes)?))
}

/// Attributes of these three, and none of strictness.
fn attrs_of(left: bool, non_assoc: bool, bracket: bool) -> Attrs
    ensures { result ≡ attrs_with left non_assoc bracket }
{
    Attrs {
        left,
        right: false,
        non_assoc,
        bracket,
        strict: Strict::No,
        seqstrict: false,
    }
}

/// A text between two places of a sort.
fn binary_items(alloc: Global, sort: u32, text: &[u8]) -> Result<Many<Part>, Memory>
    ensures { IfOk result (λ items. items ≡ items_between sort text.now) }
{
    let mut items = Vec::with_capacity(alloc, 3)?;
    items.push(Part::Sort(sort))?;
    items.push(Part::Terminal(text_of(alloc, text)?))?;
    items.push(Part::Sort(sort))?;
    Ok(Many::from_vec(items))
}

/// An operator of two arguments of a sort, which has its value there too and groups to the left.
fn binary(alloc: Global, group: u32, text: &[u8], sort: u32) -> Result<Builtin, Memory>
    ensures { IfOk result (λ builtin. builtin ≡ binary_form group text.now sort) }
{
    Ok(Builtin {
        sort,
        sentence: 0,
        group,
        items: binary_items(alloc, sort, text)?,
        attrs: attrs_of(true, false, false),
    })
}

/// The attributes of what does not stand beside its like.
fn comparing_attrs() -> Attrs
    ensures { result ≡ attrs_with false true false }
{
    attrs_of(false, true, false)
}

/// An operator that compares two values of a sort.
fn comparison(alloc: Global, text: &[u8], sort: u32) -> Result<Builtin, Memory>
    ensures { IfOk result (λ builtin. builtin ≡ comparison_form text.now sort) }
{
    Ok(Builtin {
        sort: sort::BOOL,
        sentence: 0,
        group: 2,
        items: binary_items(alloc, sort, text)?,
        attrs: comparing_attrs(),
    })
}

/// A builtin production of no group, without attributes.
fn free(sort: u32, items: Vec<Part>) -> Builtin
    ensures { result ≡ record { sort = sort; sentence = 1; group = 6; items = items.items; attrs = attrs_with false false false } }
{
    Builtin {
        sort,
        sentence: 1,
        group: 6,
        items: Many::from_vec(items),
        attrs: attrs_of(false, false, false),
    }
}

/// A word with one argument in parentheses.
fn call(alloc: Global, word: &[u8], argument: u32, sort: u32) -> Result<Builtin, Memory>
    ensures { IfOk result (λ builtin. builtin ≡ call_form word.now argument sort) }
{
    let mut items = Vec::with_capacity(alloc, 4)?;
    items.push(Part::Terminal(text_of(alloc, word)?))?;
    items.push(Part::Terminal(text_of(alloc, b"(")?))?;
    items.push(Part::Sort(argument))?;
    items.push(Part::Terminal(text_of(alloc, b")")?))?;
    Ok(free(sort, items))
}

/// Whether a map has a key.
fn in_keys(alloc: Global) -> Result<Builtin, Memory>
    ensures { IfOk result (λ builtin. builtin ≡ in_keys_form) }
{
    let mut items = Vec::with_capacity(alloc, 6)?;
    items.push(Part::Sort(sort::KITEM))?;
    items.push(Part::Terminal(text_of(alloc, b"in")?))?;
    items.push(Part::Terminal(text_of(alloc, b"keys")?))?;
    items.push(Part::Terminal(text_of(alloc, b"(")?))?;
    items.push(Part::Sort(sort::MAP))?;
    items.push(Part::Terminal(text_of(alloc, b")")?))?;
    Ok(Builtin {
        sort: sort::BOOL,
        sentence: 0,
        group: 2,
        items: Many::from_vec(items),
        attrs: comparing_attrs(),
    })
}

fn negation(alloc: Global) -> Result<Builtin, Memory>
    ensures { IfOk result (λ builtin. builtin ≡ negation_form) }
{
    let mut items = Vec::with_capacity(alloc, 2)?;
    items.push(Part::Terminal(text_of(alloc, b"notBool")?))?;
    items.push(Part::Sort(sort::BOOL))?;
    Ok(Builtin {
        sort: sort::BOOL,
        sentence: 0,
        group: 3,
        items: Many::from_vec(items),
        attrs: attrs_of(false, false, false),
    })
}

/// A map with a key mapped to a value.
fn set_key(alloc: Global) -> Result<Builtin, Memory>
    ensures { IfOk result (λ builtin. builtin ≡ set_key_form) }
{
    let mut items = Vec::with_capacity(alloc, 6)?;
    items.push(Part::Sort(sort::MAP))?;
    items.push(Part::Terminal(text_of(alloc, b"[")?))?;
    items.push(Part::Sort(sort::KITEM))?;
    items.push(Part::Terminal(text_of(alloc, b"<-")?))?;
    items.push(Part::Sort(sort::KITEM))?;
    items.push(Part::Terminal(text_of(alloc, b"]")?))?;
    Ok(free(sort::MAP, items))
}

/// The value at a key of a map.
fn get_key(alloc: Global) -> Result<Builtin, Memory>
    ensures { IfOk result (λ builtin. builtin ≡ get_key_form) }
{
    let mut items = Vec::with_capacity(alloc, 4)?;
    items.push(Part::Sort(sort::MAP))?;
    items.push(Part::Terminal(text_of(alloc, b"[")?))?;
    items.push(Part::Sort(sort::KITEM))?;
    items.push(Part::Terminal(text_of(alloc, b"]")?))?;
    Ok(free(sort::KITEM, items))
}

/// Parentheses around what is of a sort.
pub(crate) fn parentheses(alloc: Global, sort: u32) -> Result<Builtin, Memory>
    ensures { IfOk result (λ builtin. builtin ≡ parentheses_form sort) }
{
    let mut items = Vec::with_capacity(alloc, 3)?;
    items.push(Part::Terminal(text_of(alloc, b"(")?))?;
    items.push(Part::Sort(sort))?;
    items.push(Part::Terminal(text_of(alloc, b")")?))?;
    Ok(Builtin {
        sort,
        sentence: 1,
        group: 6,
        items: Many::from_vec(items),
        attrs: attrs_of(false, false, true),
    })
}

/// How an operator is written.
pub(crate) fn operator_form(alloc: Global, op: Op) -> Result<Builtin, Memory>
    ensures { IfOk result (λ builtin. builtin ≡ form_of op) }
{
    match op {
        Op::MulInt => binary(alloc, 0, b"*Int", sort::INT),
        Op::DivInt => binary(alloc, 0, b"/Int", sort::INT),
        Op::ModInt => binary(alloc, 0, b"%Int", sort::INT),
        Op::AddInt => binary(alloc, 1, b"+Int", sort::INT),
        Op::SubInt => binary(alloc, 1, b"-Int", sort::INT),
        Op::JoinString => binary(alloc, 1, b"+String", sort::STRING),
        Op::LtInt => comparison(alloc, b"<Int", sort::INT),
        Op::LeInt => comparison(alloc, b"<=Int", sort::INT),
        Op::GtInt => comparison(alloc, b">Int", sort::INT),
        Op::GeInt => comparison(alloc, b">=Int", sort::INT),
        Op::EqInt => comparison(alloc, b"==Int", sort::INT),
        Op::NeInt => comparison(alloc, b"=/=Int", sort::INT),
        Op::EqK => comparison(alloc, b"==K", sort::KITEM),
        Op::NeK => comparison(alloc, b"=/=K", sort::KITEM),
        Op::InKeys => in_keys(alloc),
        Op::Not => negation(alloc),
        Op::And => binary(alloc, 4, b"andBool", sort::BOOL),
        Op::Or => binary(alloc, 5, b"orBool", sort::BOOL),
        Op::SetKey => set_key(alloc),
        Op::GetKey => get_key(alloc),
        Op::SizeMap => call(alloc, b"size", sort::MAP, sort::INT),
        Op::SizeList => call(alloc, b"size", sort::LIST, sort::INT),
        Op::LengthString => call(alloc, b"lengthString", sort::STRING, sort::INT),
        Op::IntToString => call(alloc, b"Int2String", sort::INT, sort::STRING),
    }
}
