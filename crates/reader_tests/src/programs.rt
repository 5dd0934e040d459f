use grammar_terms::{Grammar, Part, Production};
use k_terms::{Many, Names, Text, Value, sort};
use production_reader::{Attrs, Form, Strict};
use program_reader::{ReadRefusal, read_text};
use std::alloc::Global;
use std::test::Fail;

/// The sort of the programs.
const EXP: u32 = 10;

/// The production of differences.
const DIFFERENCE: u32 = 2;

fn text_of(alloc: Global, text: &str) -> Result<Part, Fail> {
    let bytes = Vec::from_slice(alloc, text.as_bytes())?;
    Ok(Part::Terminal(Text::from_vec(bytes)))
}

fn production(group: u32, left: bool, items: Many<Part>) -> Production {
    Production {
        sort: EXP,
        sentence: group,
        group,
        items,
        attrs: Attrs {
            left,
            right: false,
            non_assoc: false,
            bracket: false,
            strict: Strict::No,
            seqstrict: false,
        },
        form: Form::Plain,
    }
}

/// `E ::= Int`, `E ::= E "-" E`, `E ::= "!" K` and `E ::= "z"`, productions 1 to 4.
fn grammar(alloc: Global, left: bool) -> Result<Grammar, Fail> {
    let mut number = Many::new(alloc);
    number.push(Part::Sort(sort::INT))?;
    let mut minus = Many::new(alloc);
    minus.push(Part::Sort(EXP))?;
    minus.push(text_of(alloc, "-")?)?;
    minus.push(Part::Sort(EXP))?;
    let mut not = Many::new(alloc);
    not.push(text_of(alloc, "!")?)?;
    not.push(Part::Sort(sort::K))?;
    let mut last = Many::new(alloc);
    last.push(text_of(alloc, "z")?)?;
    let mut prods = Many::new(alloc);
    prods.push(production(0, false, number))?;
    prods.push(production(1, left, minus))?;
    prods.push(production(2, false, not))?;
    prods.push(production(3, false, last))?;
    Ok(Grammar::new(alloc, Many::new(alloc), prods)?)
}

fn difference(alloc: Global, one: Value, other: Value) -> Result<Value, Fail> {
    let mut values = Many::new(alloc);
    values.push(one)?;
    values.push(other)?;
    Ok(Value::Node(DIFFERENCE, values))
}

/// The value of `((1 - 2) - 3)`, and of `(1 - (2 - 3))`.
fn differences(alloc: Global) -> Result<(Value, Value), Fail> {
    let first = difference(alloc, Value::Int(1), Value::Int(2))?;
    let second = difference(alloc, Value::Int(2), Value::Int(3))?;
    let left = difference(alloc, first, Value::Int(3))?;
    let right = difference(alloc, Value::Int(1), second)?;
    Ok((left, right))
}

/// A text so many times, and then another.
fn repeated(alloc: Global, text: &str, times: usize, last: &str) -> Result<String, Fail> {
    let mut line = String::new(alloc);
    for _ in 0..times {
        line.push_str(text)?;
    }
    line.push_str(last)?;
    Ok(line)
}

fn read(alloc: Global, left: bool, text: &str) -> Result<Result<Value, ReadRefusal>, Fail> {
    let grammar = grammar(alloc, left)?;
    let mut names = Names::new(alloc);
    Ok(read_text(alloc, &grammar, &mut names, EXP, text.as_bytes()))
}

#[test]
fn reads_programs(rt: HostRuntime) -> Result<(), Fail> {
    let alloc = rt.alloc();
    let (second, first) = differences(alloc)?;
    let ambiguous = ReadRefusal::Ambiguous { first, second };
    let (left, _) = differences(alloc)?;
    assert_eq!(rt; read(alloc, true, "1 - 2 - 3")?, Ok(left));
    assert_eq!(rt; read(alloc, false, "1 - 2 - 3")?, Err(ambiguous));
    assert_eq!(rt; read(alloc, true, "7")?, Ok(Value::Int(7)));
    let deep = repeated(alloc, "!", 199, "z")?;
    assert!(rt; read(alloc, true, deep.as_str())?.is_ok());
    Ok(())
}

#[test]
fn refuses_programs(rt: HostRuntime) -> Result<(), Fail> {
    let alloc = rt.alloc();
    let long = repeated(alloc, "1 - ", 128, "1")?;
    let big = repeated(alloc, " ", 65_536, "1")?;
    let deep = repeated(alloc, "!", 200, "z")?;
    let wide = "170141183460469231731687303715884105728";
    let cases: [(&str, ReadRefusal); 9] = [
        ("", ReadRefusal::NoReading { at: 0 }),
        ("1 -", ReadRefusal::NoReading { at: 0 }),
        ("true", ReadRefusal::NoReading { at: 0 }),
        ("1 $", ReadRefusal::BadToken { at: 2 }),
        (wide, ReadRefusal::WideNumber { at: 0 }),
        (
            "1 170141183460469231731687303715884105728 $",
            ReadRefusal::BadToken { at: 42 },
        ),
        (long.as_str(), ReadRefusal::TooLong { tokens: 257 }),
        (big.as_str(), ReadRefusal::TooBig { bytes: 65_536 }),
        (deep.as_str(), ReadRefusal::TooDeep { depth: 401 }),
    ];
    for (text, want) in cases {
        assert_eq!(rt; read(alloc, true, text)?, Err(want));
    }
    Ok(())
}
