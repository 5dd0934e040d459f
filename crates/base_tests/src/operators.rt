use builtins::apply;
use k_terms::{Memory, Op, Pairs, Symbol, Text, Value, Values, equal};
use std::alloc::Global;
use std::test::Fail;

fn text(alloc: Global, bytes: &[u8]) -> Result<Value, Memory> {
    Ok(Value::Str(Text::from_vec(Vec::from_slice(alloc, bytes)?)))
}

fn pair(alloc: Global, a: Value, b: Value) -> Result<Vec<Value>, Memory> {
    let mut args = Vec::new(alloc);
    args.push(a)?;
    args.push(b)?;
    Ok(args)
}

/// Whether an operator has this value at two arguments.
fn gives(alloc: Global, op: Op, a: Value, b: Value, want: Option<Value>) -> Result<bool, Memory> {
    let args = pair(alloc, a, b)?;
    Ok(match (apply(alloc, op, &args)?, want) {
        (Some(value), Some(other)) => equal(&value, &other),
        (None, None) => true,
        _ => false,
    })
}

#[test]
fn computes_whole_numbers(rt: HostRuntime) -> Result<(), Fail> {
    let (least, greatest) = (i128::MIN, i128::MAX);
    for (op, a, b, want) in [
        (Op::MulInt, 6, -7, Some(-42)),
        (Op::MulInt, least / 2, 2, Some(least)),
        (Op::MulInt, least, -1, None),
        (Op::DivInt, 7, -2, Some(-3)),
        (Op::DivInt, -7, 2, Some(-3)),
        (Op::DivInt, least, -1, None),
        (Op::DivInt, 1, 0, None),
        (Op::ModInt, 7, -2, Some(1)),
        (Op::ModInt, -7, 2, Some(-1)),
        (Op::ModInt, least, -1, Some(0)),
        (Op::ModInt, 1, 0, None),
        (Op::AddInt, greatest, 0, Some(greatest)),
        (Op::AddInt, greatest, 1, None),
        (Op::SubInt, least, 0, Some(least)),
        (Op::SubInt, least, 1, None),
        (Op::SubInt, 0, least, None),
    ] {
        let want = want.map(Value::Int);
        assert!(rt; gives(rt.alloc(), op, Value::Int(a), Value::Int(b), want)?);
    }
    Ok(())
}

#[test]
fn compares(rt: HostRuntime) -> Result<(), Fail> {
    for (op, less, same, greater) in [
        (Op::LtInt, true, false, false),
        (Op::LeInt, true, true, false),
        (Op::GtInt, false, false, true),
        (Op::GeInt, false, true, true),
        (Op::EqInt, false, true, false),
        (Op::NeInt, true, false, true),
        (Op::EqK, false, true, false),
        (Op::NeK, true, false, true),
    ] {
        for (a, want) in [(-5, less), (3, same), (4, greater)] {
            let want = Some(Value::Bool(want));
            assert!(rt; gives(rt.alloc(), op, Value::Int(a), Value::Int(3), want)?);
        }
    }
    let alloc = rt.alloc();
    let id = Value::Id(Symbol(3));
    assert!(rt; gives(alloc, Op::EqK, id, Value::Int(3), Some(Value::Bool(false)))?);
    assert!(rt;
        gives(
            alloc,
            Op::EqK,
            Value::Seq(Values::new(alloc)),
            Value::Int(3),
            None
        )?
    );
    assert!(rt; gives(alloc, Op::LtInt, Value::Bool(true), Value::Int(3), None)?);
    Ok(())
}

#[test]
fn joins_truths(rt: HostRuntime) -> Result<(), Fail> {
    for (a, b, both, one) in [
        (true, true, true, true),
        (true, false, false, true),
        (false, true, false, true),
        (false, false, false, false),
    ] {
        for (op, want) in [(Op::And, both), (Op::Or, one)] {
            let want = Some(Value::Bool(want));
            assert!(rt; gives(rt.alloc(), op, Value::Bool(a), Value::Bool(b), want)?);
        }
    }
    let mut args = Vec::new(rt.alloc());
    args.push(Value::Bool(true))?;
    assert!(rt; apply(rt.alloc(), Op::Not, &args)? == Some(Value::Bool(false)));
    assert!(rt; apply(rt.alloc(), Op::And, &args)? == None);
    Ok(())
}

#[test]
fn measures_texts(rt: HostRuntime) -> Result<(), Fail> {
    let alloc = rt.alloc();
    let (front, back) = (text(alloc, b"n\xc3\xa9")?, text(alloc, b"e")?);
    let whole = text(alloc, b"n\xc3\xa9e")?;
    let mut args = Vec::new(alloc);
    args.push(text(alloc, b"n\xc3\xa9e")?)?;
    assert!(rt; apply(alloc, Op::LengthString, &args)? == Some(Value::Int(3)));
    assert!(rt; gives(alloc, Op::JoinString, front, back, Some(whole))?);
    let mut args = Vec::new(alloc);
    args.push(Value::Int(-120))?;
    assert!(rt; apply(alloc, Op::IntToString, &args)? == Some(text(alloc, b"-120")?));
    Ok(())
}

/// The map from 1 and 3 to true.
fn map(alloc: Global) -> Result<Value, Memory> {
    let mut entries = Vec::new(alloc);
    entries.push((Value::Int(1), Value::Bool(true)))?;
    entries.push((Value::Int(3), Value::Bool(true)))?;
    Ok(Value::Map(Pairs::from_vec(entries)))
}

/// That map with a key mapped to a value.
fn with_entry(alloc: Global, key: i128, value: Value) -> Result<Option<Value>, Memory> {
    let mut args = pair(alloc, map(alloc)?, Value::Int(key))?;
    args.push(value)?;
    apply(alloc, Op::SetKey, &args)
}

/// Production 1 in itself, so deep.
fn deep(alloc: Global, depth: u32) -> Result<Value, Memory> {
    let mut value = Value::Int(0);
    for _ in 1..depth {
        let mut parts = Vec::new(alloc);
        parts.push(value)?;
        value = Value::Node(1, Values::from_vec(parts));
    }
    Ok(value)
}

#[test]
fn puts_and_finds_keys(rt: HostRuntime) -> Result<(), Fail> {
    let alloc = rt.alloc();
    let truth = Some(Value::Bool(true));
    assert!(rt; gives(alloc, Op::GetKey, map(alloc)?, Value::Int(3), truth)?);
    assert!(rt; gives(alloc, Op::GetKey, map(alloc)?, Value::Int(2), None)?);
    assert!(rt;
        gives(
            alloc,
            Op::InKeys,
            Value::Int(2),
            map(alloc)?,
            Some(Value::Bool(false))
        )?
    );
    for (key, keys) in [(0, 3), (1, 2), (2, 3), (3, 2), (4, 3)] {
        let Some(put) = with_entry(alloc, key, Value::Int(7))? else {
            assert!(rt; false);
            continue;
        };
        let mut args = pair(alloc, put, Value::Int(key))?;
        assert!(rt; apply(alloc, Op::GetKey, &args)? == Some(Value::Int(7)));
        let _ = args.pop();
        assert!(rt; apply(alloc, Op::SizeMap, &args)? == Some(Value::Int(keys)));
    }
    assert!(rt; with_entry(alloc, 2, deep(alloc, 399)?)?.is_some());
    assert!(rt; with_entry(alloc, 2, deep(alloc, 400)?)?.is_none());
    let mut args = Vec::new(alloc);
    args.push(Value::List(Values::new(alloc)))?;
    assert!(rt; apply(alloc, Op::SizeList, &args)? == Some(Value::Int(0)));
    Ok(())
}
