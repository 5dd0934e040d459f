use k_terms::{Content, Many, Memory, Pairs, Symbol, Text, Value, Values};
use printed_form::{Words, configuration_text, print_content, value_text};
use rule_terms::{CellShape, Kind, Plain};
use std::alloc::Global;
use std::test::Fail;

fn text(alloc: Global, bytes: &[u8]) -> Result<Text, Memory> {
    Ok(Text::from_vec(Vec::from_slice(alloc, bytes)?))
}

fn texts(alloc: Global, all: &[&[u8]]) -> Result<Vec<Text>, Memory> {
    let mut out = Vec::new(alloc);
    for bytes in all {
        out.push(text(alloc, bytes)?)?;
    }
    Ok(out)
}

fn pair(alloc: Global, first: Value, second: Value) -> Result<Values, Memory> {
    let mut values = Values::new(alloc);
    values.push(first)?;
    values.push(second)?;
    Ok(values)
}

fn single(alloc: Global, value: Value) -> Result<Values, Memory> {
    let mut values = Values::new(alloc);
    values.push(value)?;
    Ok(values)
}

const LABELS: [&[u8]; 5] = [b"_/_", b"_+_", b"_=_;", b"int_;_", b"Ids"];

const SYMBOLS: [&[u8]; 3] = [b"x", b"step", b"total"];

#[test]
fn prints_a_program(rt: HostRuntime) -> Result<(), Fail> {
    let alloc = rt.alloc();
    let labels = texts(alloc, &LABELS)?;
    let symbols = texts(alloc, &SYMBOLS)?;
    let words = Words {
        labels: &labels,
        symbols: &symbols,
    };
    let names = Value::Items(5, single(alloc, Value::Id(Symbol(0)))?);
    let sum = Value::Node(2, pair(alloc, Value::Int(1), Value::Int(2))?);
    let assignment = Value::Node(3, pair(alloc, Value::Id(Symbol(0)), sum)?);
    let program = Value::Node(4, pair(alloc, names, assignment)?);
    let printed = value_text(alloc, &words, &program)?;
    assert_eq!(rt;
        printed.as_slice(),
        b"int_;_(.Ids[x],_=_;(x,_+_(1,2)))".as_slice()
    );
    Ok(())
}

#[test]
fn prints_a_heated_argument(rt: HostRuntime) -> Result<(), Fail> {
    let alloc = rt.alloc();
    let labels = texts(alloc, &LABELS)?;
    let symbols = texts(alloc, &SYMBOLS)?;
    let words = Words {
        labels: &labels,
        symbols: &symbols,
    };
    let quotient = Value::Node(1, pair(alloc, Value::Int(1), Value::Int(0))?);
    let freezer = Value::Freezer(3, 2, single(alloc, Value::Id(Symbol(0)))?);
    let content = Content::Seq(pair(alloc, quotient, freezer)?);
    let mut out = Vec::new(alloc);
    print_content(alloc, &words, &content, &mut out)?;
    assert_eq!(rt; out.as_slice(), b"_/_(1,0) ~> #freeze(_=_;,2,x)".as_slice());
    Ok(())
}

fn leaf(alloc: Global, cell: u32, content: Content) -> Plain {
    Plain {
        cell,
        content,
        children: Many::new(alloc),
    }
}

#[test]
fn prints_a_configuration(rt: HostRuntime) -> Result<(), Fail> {
    let alloc = rt.alloc();
    let labels = texts(alloc, &LABELS)?;
    let symbols = texts(alloc, &SYMBOLS)?;
    let words = Words {
        labels: &labels,
        symbols: &symbols,
    };
    let mut cells = Vec::new(alloc);
    cells.push(CellShape {
        name: text(alloc, b"T")?,
        parent: None,
        many: false,
        kind: Kind::Cells,
    })?;
    cells.push(CellShape {
        name: text(alloc, b"k")?,
        parent: Some(0),
        many: false,
        kind: Kind::Seq,
    })?;
    cells.push(CellShape {
        name: text(alloc, b"state")?,
        parent: Some(0),
        many: false,
        kind: Kind::Map,
    })?;
    let mut entries = Vec::new(alloc);
    entries.push((Value::Id(Symbol(0)), Value::Int(3)))?;
    let mut children = Many::new(alloc);
    children.push(leaf(alloc, 2, Content::Map(Pairs::from_vec(entries))))?;
    children.push(leaf(alloc, 1, Content::Seq(Values::new(alloc))))?;
    let plain = Plain {
        cell: 0,
        content: Content::Cells,
        children,
    };
    let printed = configuration_text(alloc, &words, &cells, &plain)?;
    assert_eq!(rt;
        printed.as_slice(),
        b"<T>\n  <k> .K </k>\n  <state> x |-> 3 </state>\n</T>\n".as_slice()
    );
    Ok(())
}
