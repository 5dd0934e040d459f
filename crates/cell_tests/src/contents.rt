ghost use Rattle.std.specs.Prelude.{◌≤◌, length, IfOk};

use cell_contents::{ContentFault, read_content};
use cell_tokens::{CellToken, split_cells};
use cell_trees::Declared;
use grammar_terms::{Grammar, Part, Production};
use k_lexer::tokens;
use k_terms::{Content, Many, Names, Text, Value, sort};
use production_reader::{Attrs, Form, Strict};
use std::alloc::Global;
use std::test::Fail;

fn text_of(alloc: Global, text: &str) -> Result<Text, Fail> {
    Ok(Text::from_vec(Vec::from_slice(alloc, text.as_bytes())?))
}

fn attrs(bracket: bool) -> Attrs {
    Attrs {
        left: false,
        right: false,
        non_assoc: false,
        bracket,
        strict: Strict::No,
        seqstrict: false,
    }
}

fn part_of(alloc: Global, word: &str) -> Result<Part, Fail> {
    match word {
        "Pgm" => Ok(Part::Sort(10)),
        "Int" => Ok(Part::Sort(sort::INT)),
        "Id" => Ok(Part::Sort(sort::ID)),
        _ => Ok(Part::Terminal(text_of(alloc, word)?)),
    }
}

/// A production of sort 10 with these items.
fn production(alloc: Global, words: &str, bracket: bool) -> Result<Production, Fail> {
    let mut items = Many::new(alloc);
    for word in words.split_ascii_whitespace() {
        items.push(part_of(alloc, word)?)?;
    }
    Ok(Production {
        sort: 10,
        sentence: 0,
        group: 0,
        items,
        attrs: attrs(bracket),
        form: Form::Plain,
    })
}

/// The production of lists of identifiers, of sort 11.
fn list(alloc: Global) -> Result<Production, Fail> {
    let mut items = Many::new(alloc);
    items.push(Part::Sort(sort::ID))?;
    Ok(Production {
        sort: 11,
        sentence: 1,
        group: 1,
        items,
        attrs: attrs(false),
        form: Form::UserList {
            separator: text_of(alloc, ",")?,
        },
    })
}

fn sorts(alloc: Global) -> Result<Many<Text>, Fail>
    ensures { IfOk result (λ names. length names ≤ 12) }
{
    let mut names = Many::new(alloc);
    for name in [
        "K", "KItem", "KResult", "Int", "Bool", "String", "Id", "Map", "List", "Bag", "Pgm", "Ids",
    ] {
        names.push(text_of(alloc, name)?)?;
    }
    if names.len() > 12 {
        return Ok(Many::new(alloc));
    }
    Ok(names)
}

/// Sums in which nothing groups, integers, identifiers and brackets; and lists of identifiers, or not.
fn grammar(alloc: Global, lists: bool) -> Result<Grammar, Fail> {
    let mut prods = Many::new(alloc);
    prods.push(production(alloc, "Pgm + Pgm", false)?)?;
    prods.push(production(alloc, "Int", false)?)?;
    prods.push(production(alloc, "Id", false)?)?;
    prods.push(production(alloc, "( Pgm )", true)?)?;
    if lists {
        prods.push(list(alloc)?)?;
    }
    Ok(Grammar::new(alloc, sorts(alloc)?, prods)?)
}

#[cycle(showing)]
fn show_all(alloc: Global, line: &mut String, values: &[Value]) -> Result<(), Fail> {
    line.push_str("(")?;
    for value in values {
        show(alloc, line, value)?;
        line.push_str(" ")?;
    }
    line.push_str(")")?;
    Ok(())
}

#[cycle(showing)]
fn show(alloc: Global, line: &mut String, value: &Value) -> Result<(), Fail> {
    match value {
        Value::Int(number) => line.push_str(&format!(in alloc; "{number}")?)?,
        Value::Bool(truth) => line.push_str(&format!(in alloc; "{truth}")?)?,
        Value::Str(text) => line.push_str(str::from_utf8(text.as_slice()).unwrap_or("?"))?,
        Value::Id(symbol) => {
            let number = symbol.0;
            line.push_str(&format!(in alloc; "#{number}")?)?;
        }
        Value::Node(prod, parts) => {
            line.push_str(&format!(in alloc; "node{prod}")?)?;
            show_all(alloc, line, parts.as_slice())?;
        }
        Value::Items(prod, parts) => {
            line.push_str(&format!(in alloc; "items{prod}")?)?;
            show_all(alloc, line, parts.as_slice())?;
        }
        _ => line.push_str("?")?,
    }
    Ok(())
}

fn show_content(alloc: Global, line: &mut String, content: &Content) -> Result<(), Fail> {
    match content {
        Content::Cells => line.push_str("cells")?,
        Content::Seq(values) => {
            line.push_str("seq")?;
            show_all(alloc, line, values.as_slice())?;
        }
        Content::Map(entries) => {
            line.push_str("map(")?;
            for (key, value) in entries.iter() {
                show(alloc, line, key)?;
                line.push_str(":")?;
                show(alloc, line, value)?;
                line.push_str(" ")?;
            }
            line.push_str(")")?;
        }
        Content::List(values) => {
            line.push_str("list")?;
            show_all(alloc, line, values.as_slice())?;
        }
        Content::One(value) => {
            line.push_str("one ")?;
            show(alloc, line, value)?;
        }
    }
    Ok(())
}

/// The tokens of a text over a grammar.
fn split_of(alloc: Global, grammar: &Grammar, text: &str) -> Result<Many<CellToken>, Fail> {
    let mut names = Names::new(alloc);
    let bytes = text.as_bytes();
    let base = tokens(alloc, bytes)?;
    let found = split_cells(alloc, grammar, &mut names, bytes, &base)?;
    Ok(found)
}

/// What the text of a content declares, on one line.
fn content_shown(alloc: Global, lists: bool, text: &str) -> Result<String, Fail> {
    let grammar = grammar(alloc, lists)?;
    let found = split_of(alloc, &grammar, text)?;
    let mut line = String::new(alloc);
    match read_content(alloc, &grammar, found.as_slice()) {
        Ok(Declared::Program { sort }) => line.push_str(&format!(in alloc; "program{sort}")?)?,
        Ok(Declared::Input) => line.push_str("input")?,
        Ok(Declared::Fixed(content)) => show_content(alloc, &mut line, &content)?,
        Err(ContentFault::NoContent) => line.push_str("none")?,
        Err(ContentFault::Memory) => line.push_str("memory")?,
    }
    Ok(line)
}

/// A text, and what it declares.
type Case = (&'static str, &'static str);

const PLAIN: [Case; 41] = [
    ("$PGM:Pgm", "program10"),
    ("$PGM:K", "program0"),
    ("$PGM:Foo", "none"),
    ("$PGM:Pgm ~> a", "none"),
    ("$IN:List", "input"),
    (".", "seq()"),
    (".K", "seq()"),
    (".Map", "map()"),
    (".List", "list()"),
    (".Bag", "none"),
    ("7", "one 7"),
    ("true", "one true"),
    ("\"s\"", "one s"),
    ("a", "seq(#0 )"),
    // A word that begins with a capital letter is an identifier.
    ("X", "seq(#0 )"),
    ("(7)", "seq(7 )"),
    ("1 + a", "seq(node1(1 #0 ) )"),
    // Two readings.
    ("1 + 2 + 3", "none"),
    ("(1 + 2) + 3", "seq(node1(node1(1 2 ) 3 ) )"),
    ("a ~> 1 ~> b", "seq(#0 1 #1 )"),
    ("1 ~> 1 + 2 + 3", "none"),
    // An empty content is no item.
    (". ~> a", "none"),
    ("a ~> .", "none"),
    ("a ~>", "none"),
    ("~> a", "none"),
    ("a |-> 1", "map(#0:1 )"),
    ("2 |-> a 1 |-> b", "map(1:#1 2:#0 )"),
    ("1 |-> 2 (3) |-> 4", "map(1:2 3:4 )"),
    // A sum has to be cut where no item begins.
    ("1 |-> 2 + 3 |-> 4", "none"),
    // A key twice.
    ("a |-> 1 a |-> 2", "none"),
    ("1 |-> a (1) |-> b", "none"),
    ("a |->", "none"),
    ("|-> 1", "none"),
    (".Map a |-> 1", "none"),
    ("a |-> 1 ~> b", "none"),
    ("ListItem(1)", "list(1 )"),
    ("ListItem((1)) ListItem(a + b)", "list(1 node1(#1 #2 ) )"),
    ("ListItem()", "none"),
    ("ListItem(1) 2", "none"),
    (".List ListItem(1)", "none"),
    ("170141183460469231731687303715884105728", "none"),
];

const LISTED: [Case; 6] = [
    ("a , b", "seq(items5(#0 #1 ) )"),
    ("a", "seq(#0 )"),
    // No item is empty, although a list may be.
    ("~> a", "none"),
    ("a |->", "none"),
    ("ListItem()", "none"),
    ("a |-> b , c d |-> e", "map(#0:items5(#1 #2 ) #3:#4 )"),
];

/// The texts that declare something else.
fn otherwise(alloc: Global, lists: bool, cases: &[Case]) -> Result<String, Fail> {
    let mut line = String::new(alloc);
    for (text, expected) in cases {
        let shown = content_shown(alloc, lists, text)?;
        if shown.as_str() != *expected {
            line.push_str(text)?;
            line.push_str(" is ")?;
            line.push_str(shown.as_str())?;
            line.push_str("; ")?;
        }
    }
    Ok(line)
}

#[test]
fn plain(rt: HostRuntime) -> Result<(), Fail> {
    assert_eq!(rt; otherwise(rt.alloc(), false, &PLAIN)?.as_str(), "");
    Ok(())
}

#[test]
fn listed(rt: HostRuntime) -> Result<(), Fail> {
    assert_eq!(rt; otherwise(rt.alloc(), true, &LISTED)?.as_str(), "");
    Ok(())
}
