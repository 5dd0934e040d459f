//! Grammars, words and shapes for tests.
ghost use Rattle.std.specs.Prelude.{◌≤◌, IfOk, length};

use grammar_terms::{
    CLOSE_PLACE, Grammar, OPEN_PLACE, Part, Production, REWRITE_PLACE, Shape, Word, WordKind,
};
use k_terms::{Many, Memory, Symbol, Text, Value, sort};
use production_reader::{Attrs, Form as WrittenForm, Strict};
use rule_contents::ContentFault;
use rule_terms::Kind;
use std::alloc::Global;
use std::test::Fail;

/// The built-in sorts, and those of the productions below from 10 on.
const SORTS: &str = "K KItem KResult Int Bool String Id Map List Bag AExp Stmt Pgm Ids Cmd Cmds";

pub(crate) const STMT: u32 = 11;

pub(crate) const IDS: u32 = 13;

const CMD: u32 = 14;

const CMDS: u32 = 15;

/// Expressions and statements: a production's sort and its items, and behind a stroke what stands between elements.
const IMP: [&str; 8] = [
    "AExp Int",
    "AExp Id",
    "AExp AExp / AExp",
    "AExp AExp + AExp",
    "Stmt Id = AExp ;",
    "Stmt Stmt Stmt",
    "Pgm int Ids ; Stmt",
    "Ids Id|,",
];

/// Commands.
const PAR: [&str; 9] = [
    "Cmd get Id",
    "Cmd set Id Int",
    "Cmd new Id Int",
    "Cmd count",
    "Cmd quit",
    "Cmd pair",
    "Cmd kill",
    "Cmd spawn { Cmds }",
    "Cmds Cmd|;",
];

/// Statements without lists.
const PLAIN: [&str; 2] = ["Stmt skip", "Stmt Stmt Stmt"];

/// Two list sorts.
const LISTS: [&str; 2] = ["Ids Id|,", "Cmds Int|;"];

pub(crate) fn text(alloc: Global, text: &str) -> Result<Text, Memory> {
    Ok(Text::from_vec(Vec::from_slice(alloc, text.as_bytes())?))
}

/// The number of a sort.
fn sort_of(name: &str) -> Option<u32> {
    let mut number: u32 = 0;
    for sort in SORTS.split(' ') {
        if sort == name {
            return Some(number);
        }
        number = number.saturating_add(1);
    }
    None
}

/// The item that is written so.
fn item_of(alloc: Global, written: &str) -> Result<Part, Memory> {
    match sort_of(written) {
        Some(sort) => Ok(Part::Sort(sort)),
        None => Ok(Part::Terminal(text(alloc, written)?)),
    }
}

/// The items behind a sort.
fn items_of(alloc: Global, written: &str) -> Result<Many<Part>, Memory> {
    let mut items = Many::new(alloc);
    let mut is_item = false;
    for word in written.split(' ') {
        if is_item {
            items.push(item_of(alloc, word)?)?;
        }
        is_item = true;
    }
    Ok(items)
}

fn form_of(alloc: Global, separator: Option<&str>) -> Result<WrittenForm, Memory> {
    match separator {
        Some(separator) => Ok(WrittenForm::UserList {
            separator: text(alloc, separator)?,
        }),
        None => Ok(WrittenForm::Plain),
    }
}

/// A production of a sentence of its own, which groups to the left where it has several items.
fn production(alloc: Global, sentence: u32, line: &str) -> Result<Production, Memory> {
    let mut parts = line.split('|');
    let written = parts.next().unwrap_or("");
    let form = form_of(alloc, parts.next())?;
    let items = items_of(alloc, written)?;
    Ok(Production {
        sort: sort_of(written.split(' ').next().unwrap_or("")).unwrap_or(0),
        sentence,
        group: sentence,
        attrs: Attrs {
            left: items.len() > 1,
            right: false,
            non_assoc: false,
            bracket: false,
            strict: Strict::No,
            seqstrict: false,
        },
        items,
        form,
    })
}

fn names(alloc: Global) -> Result<Many<Text>, Memory>
    ensures { IfOk result (λ names. length names ≤ 16) }
{
    let mut names = Many::new(alloc);
    for name in SORTS.split(' ') {
        names.push(text(alloc, name)?)?;
    }
    if names.len() > 16 {
        return Ok(Many::new(alloc));
    }
    Ok(names)
}

fn rules_of(alloc: Global, lines: &[&str]) -> Result<Grammar, Memory> {
    let mut prods = Many::new(alloc);
    let mut sentence: u32 = 0;
    for line in lines {
        prods.push(production(alloc, sentence, line)?)?;
        sentence = sentence.saturating_add(1);
    }
    Grammar::new(alloc, names(alloc)?, prods)?.for_rules(alloc)
}

/// The grammar for rules of productions.
pub(crate) fn rules(alloc: Global, name: &str) -> Result<Grammar, Memory> {
    if name == "IMP" {
        return rules_of(alloc, &IMP);
    }
    if name == "PAR" {
        return rules_of(alloc, &PAR);
    }
    if name == "PLAIN" {
        return rules_of(alloc, &PLAIN);
    }
    rules_of(alloc, &LISTS)
}

fn kind_of(name: &str) -> Kind {
    if name == "sequence" {
        return Kind::Seq;
    }
    if name == "map" {
        return Kind::Map;
    }
    if name == "list" {
        return Kind::List;
    }
    match sort_of(name) {
        Some(sort) => Kind::One(sort),
        None => Kind::Cells,
    }
}

/// What a content is asked over: a grammar for rules, a kind of cell, and whether that is new.
#[derive(Drop)]
pub(crate) struct Asked {
    pub(crate) rules: Grammar,
    pub(crate) kind: Kind,
    pub(crate) is_new: bool,
}

pub(crate) fn read_asked(alloc: Global, written: &str) -> Result<Asked, Memory> {
    let mut parts = written.split(' ');
    Ok(Asked {
        rules: rules(alloc, parts.next().unwrap_or(""))?,
        kind: kind_of(parts.next().unwrap_or("")),
        is_new: parts.next().is_some(),
    })
}

/// Variables with their sorts.
const VARIABLES: [(&str, u32); 10] = [
    ("X", sort::ID),
    ("Y", sort::ID),
    ("I", sort::INT),
    ("E", sort::MAP),
    ("L", sort::LIST),
    ("R", sort::K),
    ("S", STMT),
    ("Xs", IDS),
    ("C", CMD),
    ("Cs", CMDS),
];

/// Empty lists, and the empty sequence.
const EMPTIES: [(&str, u32); 6] = [
    (".", sort::K),
    (".K", sort::K),
    (".Map", sort::MAP),
    (".List", sort::LIST),
    (".Ids", IDS),
    (".Cmds", CMDS),
];

/// Terminals that places ask for.
const ASKED: [(&str, u32); 3] = [("=>", REWRITE_PLACE), ("(", OPEN_PLACE), (")", CLOSE_PLACE)];

const NUMBERS: [(&str, u32); 2] = [("0", 0), ("1", 1)];

/// Identifiers by their symbols.
const IDENTIFIERS: [(&str, u32); 2] = [("a", 0), ("b", 1)];

/// What stands beside a word in a table.
fn found_in(table: &[(&str, u32)], written: &str) -> Option<u32> {
    for (other, number) in table {
        if *other == written {
            return Some(*number);
        }
    }
    None
}

/// What is written so as a literal.
fn literal_of(written: &str) -> Option<(Value, u32)> {
    if let Some(number) = found_in(&NUMBERS, written) {
        return Some((Value::Int(i128::from(number)), sort::INT));
    }
    if let Some(symbol) = found_in(&IDENTIFIERS, written) {
        return Some((Value::Id(Symbol(symbol)), sort::ID));
    }
    if written == "true" {
        return Some((Value::Bool(true), sort::BOOL));
    }
    None
}

fn word(kind: WordKind, sort: u32, written: &str) -> Word {
    Word {
        kind,
        sort,
        start: 0,
        end: written.len(),
    }
}

/// The word that is written so; a terminal where it is nothing else.
fn word_of(alloc: Global, written: &str) -> Result<Word, Memory> {
    if written == "_" {
        return Ok(word(WordKind::Wild, 0, written));
    }
    if let Some(sort) = found_in(&VARIABLES, written) {
        return Ok(word(WordKind::Variable, sort, written));
    }
    if let Some(sort) = found_in(&EMPTIES, written) {
        return Ok(word(WordKind::EmptyList, sort, written));
    }
    if let Some((value, sort)) = literal_of(written) {
        return Ok(word(WordKind::Literal(value), sort, written));
    }
    let number = found_in(&ASKED, written).unwrap_or(0);
    Ok(word(WordKind::Terminal(text(alloc, written)?), number, written))
}

/// The words that are written with a blank between.
pub(crate) fn words(alloc: Global, written: &str) -> Result<Vec<Word>, Memory> {
    let mut words = Vec::new(alloc);
    if written.is_empty() {
        return Ok(words);
    }
    for one in written.split(' ') {
        words.push(word_of(alloc, one)?)?;
    }
    Ok(words)
}

/// Adds the number of a production; one behind the last of the grammar for rules counts from there, behind `#`.
fn show_number(alloc: Global, last: u32, prod: u32, line: &mut String) -> Result<(), Fail> {
    match prod.checked_sub(last) {
        None | Some(0) => line.push_str(&format!(in alloc; "{prod}")?)?,
        Some(number) => line.push_str(&format!(in alloc; "#{number}")?)?,
    }
    Ok(())
}

/// Adds the rest of a list behind a stroke, where there is one, and the bracket.
fn show_end(alloc: Global, rest: Option<usize>, line: &mut String) -> Result<(), Fail> {
    if let Some(rest) = rest {
        line.push_str(&format!(in alloc; "| {rest} ")?)?;
    }
    line.push_str("]")?;
    Ok(())
}

/// Adds the shapes of parts, with a blank behind each.
#[cycle(showing)]
fn show_parts(alloc: Global, last: u32, shapes: &[Shape], line: &mut String) -> Result<(), Fail> {
    for shape in shapes {
        show_shape(alloc, last, shape, line)?;
        line.push_str(" ")?;
    }
    Ok(())
}

/// Adds a token as its place, and anything else as the number of its production and its parts.
#[cycle(showing)]
fn show_shape(alloc: Global, last: u32, shape: &Shape, line: &mut String) -> Result<(), Fail> {
    match shape {
        Shape::Leaf(at) => line.push_str(&format!(in alloc; "{at}")?)?,
        Shape::Node(prod, shapes) => {
            show_number(alloc, last, *prod, line)?;
            line.push_str("( ")?;
            show_parts(alloc, last, shapes.as_slice(), line)?;
            line.push_str(")")?;
        }
        Shape::Items(prod, shapes, rest) => {
            show_number(alloc, last, *prod, line)?;
            line.push_str("[ ")?;
            show_parts(alloc, last, shapes.as_slice(), line)?;
            show_end(alloc, *rest, line)?;
        }
    }
    Ok(())
}

/// A shape on one line: a token as its place, and anything else as the number of its production and its parts.
pub(crate) fn shape_shown(alloc: Global, last: u32, shape: &Shape) -> Result<String, Fail> {
    let mut line = String::new(alloc);
    show_shape(alloc, last, shape, &mut line)?;
    Ok(line)
}

pub(crate) fn fault_shown(fault: ContentFault) -> &'static str {
    match fault {
        ContentFault::NoReading => "none",
        ContentFault::Ambiguous => "two",
        ContentFault::Memory => "memory",
    }
}
