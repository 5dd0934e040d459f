//! The value of a reading.
ghost use Rattle.std.specs.Prelude.{◌≡◌, ◌++◌, get_or, unwrap_or, IfOk};
ghost use Rattle.k_terms.specs.Sorts.{sort_kitem};
ghost use Rattle.grammar_terms.specs.Values.{at_sort as value_at, list_value as list_value_of, literal_of, literal_at, sorts_in, sorts_of as sorts_by, first_or_item, value_of, values_by, elements_by};

use grammar_terms::{Grammar, Part, Shape, Word, WordKind};
use k_terms::{Many, Memory, Value, copy, sort};
use std::alloc::Global;

/// The value of a literal or an identifier, and the empty sequence for any other token.
fn literal(alloc: Global, kind: &WordKind) -> Result<Value, Memory>
    ensures { IfOk result (λ value. value ≡ literal_of kind.now) }
{
    match kind {
        WordKind::Literal(value) => copy(alloc, value),
        WordKind::Terminal(_) | WordKind::Variable | WordKind::Wild | WordKind::EmptyList => {
            Ok(Value::Seq(Many::new(alloc)))
        }
    }
}

/// The value of the token at a place.
fn leaf(alloc: Global, words: &[Word], at: usize) -> Result<Value, Memory>
    ensures { IfOk result (λ value. value ≡ literal_at words.now at) }
{
    match words.get(at) {
        Some(word) => literal(alloc, &word.kind),
        None => Ok(Value::Seq(Many::new(alloc))),
    }
}

/// A value at a place of a sort: at one of sort K the sequence of it.
fn at_sort(alloc: Global, sort: u32, value: Value) -> Result<Value, Memory>
    ensures { IfOk result (λ it. it ≡ value_at sort value) }
{
    if sort != sort::K {
        return Ok(value);
    }
    let mut items = Vec::new(alloc);
    items.push(value)?;
    Ok(Value::Seq(Many::from_vec(items)))
}

/// The value of a list at a place of a sort, or of a sequence, whose number is 0.
fn list_value(alloc: Global, sort: u32, prod: u32, values: Many<Value>) -> Result<Value, Memory>
    ensures { IfOk result (λ value. value ≡ list_value_of sort prod values) }
{
    if prod == 0 {
        return Ok(Value::Seq(values));
    }
    at_sort(alloc, sort, Value::Items(prod, values))
}

/// The sorts of the items that are sorts.
fn sorts_among(alloc: Global, items: &[Part]) -> Result<Vec<u32>, Memory>
    ensures { IfOk result (λ sorts. sorts.items ≡ sorts_in items.now) }
{
    let mut sorts = Vec::new(alloc);
    for item in items {
        if let Part::Sort(sort) = item {
            sorts.push(*sort)?;
        }
    }
    Ok(sorts)
}

/// The sorts of a production's arguments.
fn sorts_of(alloc: Global, grammar: &Grammar, prod: u32) -> Result<Vec<u32>, Memory>
    ensures { IfOk result (λ sorts. sorts.items ≡ sorts_by grammar.now.prods prod) }
{
    match grammar.production(prod) {
        Some(production) => sorts_among(alloc, production.items.as_slice()),
        None => Ok(Vec::new(alloc)),
    }
}

/// The sort at a place among some, and KItem past them.
fn sort_at(sorts: &[u32], at: usize) -> u32
    ensures { result ≡ get_or sorts.now at sort_kitem }
{
    match sorts.get(at) {
        Some(sort) => *sort,
        None => sort::KITEM,
    }
}

/// The value of a reading at a place of a sort.
#[cycle(building)]
pub fn value(
    alloc: Global,
    grammar: &Grammar,
    words: &[Word],
    sort: u32,
    shape: &Shape,
) -> Result<Value, Memory>
    ensures { IfOk result (λ value. value ≡ value_of grammar.now.prods words.now sort shape.now) }
{
    match shape {
        Shape::Leaf(at) => {
            let literal = leaf(alloc, words, *at)?;
            at_sort(alloc, sort, literal)
        }
        Shape::Node(prod, shapes) => {
            let sorts = sorts_of(alloc, grammar, *prod)?;
            let values = values(alloc, grammar, words, &sorts, shapes.as_slice())?;
            at_sort(alloc, sort, Value::Node(*prod, values))
        }
        Shape::Items(prod, shapes, _) => {
            let sorts = sorts_of(alloc, grammar, *prod)?;
            let element = sort_at(&sorts, 0);
            let values = elements(alloc, grammar, words, element, shapes.as_slice())?;
            list_value(alloc, sort, *prod, values)
        }
    }
}

/// The values of arguments, each at the place of its sort.
#[cycle(building)]
fn values(
    alloc: Global,
    grammar: &Grammar,
    words: &[Word],
    sorts: &[u32],
    shapes: &[Shape],
) -> Result<Many<Value>, Memory>
    ensures { IfOk result (λ values. values ≡ values_by grammar.now.prods words.now sorts.now shapes.now) }
{
    let mut values = Vec::with_capacity(alloc, shapes.len())?;
    for (index, shape) in shapes.iter().enumerate() {
        let sort = sort_at(sorts, index);
        values.push(value(alloc, grammar, words, sort, shape)?)?;
    }
    Ok(Many::from_vec(values))
}

/// The values of elements.
#[cycle(building)]
fn elements(
    alloc: Global,
    grammar: &Grammar,
    words: &[Word],
    sort: u32,
    shapes: &[Shape],
) -> Result<Many<Value>, Memory>
    ensures { IfOk result (λ values. values ≡ elements_by grammar.now.prods words.now sort shapes.now) }
{
    let mut values = Vec::with_capacity(alloc, shapes.len())?;
    for shape in shapes {
        values.push(value(alloc, grammar, words, sort, shape)?)?;
    }
    Ok(Many::from_vec(values))
}
