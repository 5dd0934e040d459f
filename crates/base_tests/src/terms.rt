use k_terms::{
    CellList, Memory, Names, Numbers, Pairs, Sorts, Symbol, Text, Value, Values, cmp, copy, depth,
    equal, sort,
};
use std::alloc::Global;
use std::cmp::Ordering;
use std::test::Fail;

fn text(alloc: Global, bytes: &[u8]) -> Result<Text, Memory> {
    Ok(Text::from_vec(Vec::from_slice(alloc, bytes)?))
}

/// The production 7 over a map from the text `x` to a list of `#3` and a freezer.
fn nested(alloc: Global) -> Result<Value, Memory> {
    let mut parts = Vec::new(alloc);
    parts.push(Value::Id(Symbol(3)))?;
    parts.push(Value::Freezer(2, 1, Values::new(alloc)))?;
    let mut entries = Vec::new(alloc);
    entries.push((
        Value::Str(text(alloc, b"x")?),
        Value::List(Values::from_vec(parts)),
    ))?;
    let mut whole = Vec::new(alloc);
    whole.push(Value::Map(Pairs::from_vec(entries)))?;
    Ok(Value::Node(7, Values::from_vec(whole)))
}

#[test]
fn copies_and_measures(rt: HostRuntime) -> Result<(), Fail> {
    let value = nested(rt.alloc())?;
    let other = copy(rt.alloc(), &value)?;
    assert!(rt; equal(&value, &other));
    assert_eq!(rt; depth(&value), 4);
    Ok(())
}

#[test]
fn compares_by_variant_first(rt: HostRuntime) -> Result<(), Fail> {
    let node = nested(rt.alloc())?;
    let short = Value::Str(text(rt.alloc(), b"ab")?);
    let long = Value::Str(text(rt.alloc(), b"aba")?);
    assert_eq!(rt; cmp(&Value::Int(9), &Value::Bool(false)), Ordering::Less);
    assert_eq!(rt; cmp(&Value::Int(-1), &Value::Int(0)), Ordering::Less);
    assert_eq!(rt; cmp(&short, &long), Ordering::Less);
    assert_eq!(rt; cmp(&node, &long), Ordering::Greater);
    Ok(())
}

#[test]
fn orders_sorts(rt: HostRuntime) -> Result<(), Fail> {
    let sorts = Sorts::new(rt.alloc(), &[(11, 10), (sort::INT, 11)], &[10, 12])?;
    for (low, high, want) in [
        (11, 10, true),
        (sort::INT, 10, true),
        (10, 11, false),
        (11, sort::K, true),
        (12, sort::KITEM, true),
        (sort::MAP, sort::KITEM, false),
        (99, 99, true),
        (99, sort::K, false),
    ] {
        assert_eq!(rt; sorts.below(low, high), want, "{low} below {high}");
    }
    assert_eq!(rt;
        sorts.least_sort(&Value::Node(2, Values::new(rt.alloc()))),
        12
    );
    assert_eq!(rt;
        sorts.least_sort(&Value::Node(3, Values::new(rt.alloc()))),
        sort::KITEM
    );
    Ok(())
}

#[test]
fn keeps_more_than_eight_cells(rt: HostRuntime) -> Result<(), Fail> {
    let mut list = CellList::new(rt.alloc());
    for cell in 1..11 {
        list.push(cell)?;
    }
    let other = list.copy()?;
    assert!(rt; CellList::equal(&list, &other));
    assert_eq!(rt; other.get(9), Some(10));
    Ok(())
}

#[test]
fn lists_numbers(rt: HostRuntime) -> Result<(), Fail> {
    let mut numbers = Numbers::new(rt.alloc());
    numbers.push(5)?;
    assert_eq!(rt; numbers.len(), 1);
    assert_eq!(rt; numbers.get(0).copied(), Some(5));
    assert!(rt; numbers.get(1).is_none());
    Ok(())
}

#[test]
fn numbers_words(rt: HostRuntime) -> Result<(), Fail> {
    let mut names = Names::new(rt.alloc());
    assert_eq!(rt; names.number(rt.alloc(), "x")?, Symbol(0));
    assert_eq!(rt; names.number(rt.alloc(), "n")?, Symbol(1));
    assert_eq!(rt; names.number(rt.alloc(), "x")?, Symbol(0));
    assert_eq!(rt; names.find("n"), Some(Symbol(1)));
    assert_eq!(rt; names.find("s"), None);
    assert_eq!(rt; names.word(Symbol(1)).unwrap_or(""), "n");
    assert!(rt; names.word(Symbol(2)).is_none());
    Ok(())
}
