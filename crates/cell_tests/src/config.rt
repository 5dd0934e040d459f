ghost use Rattle.std.specs.Prelude.{◌≤◌, length, IfOk};

use cell_config::{CellRefusal, read_cells};
use cell_trees::{CellTree, Declared};
use file_reader::Sentence;
use grammar_terms::{Grammar, Part, Production};
use k_lexer::{Token, tokens};
use k_terms::{Many, Names, Text, sort};
use production_reader::{Attrs, Form, Strict};
use rule_terms::{CellShape, Kind};
use std::alloc::Global;
use std::test::Fail;

fn text_of(alloc: Global, text: &str) -> Result<Text, Fail> {
    Ok(Text::from_vec(Vec::from_slice(alloc, text.as_bytes())?))
}

/// The built-in sorts, and one more.
fn sorts(alloc: Global) -> Result<Many<Text>, Fail>
    ensures { IfOk result (λ names. length names ≤ 11) }
{
    let mut names = Many::new(alloc);
    for name in "K KItem KResult Int Bool String Id Map List Bag Pgm".split_ascii_whitespace() {
        names.push(text_of(alloc, name)?)?;
    }
    if names.len() > 11 {
        return Ok(Many::new(alloc));
    }
    Ok(names)
}

fn production(items: Many<Part>) -> Production {
    Production {
        sort: 10,
        sentence: 0,
        group: 0,
        items,
        attrs: Attrs {
            left: false,
            right: false,
            non_assoc: false,
            bracket: false,
            strict: Strict::No,
            seqstrict: false,
        },
        form: Form::Plain,
    }
}

/// `syntax Pgm ::= Int | Pgm "+" Pgm`
fn grammar(alloc: Global) -> Result<Grammar, Fail> {
    let mut number = Many::new(alloc);
    number.push(Part::Sort(sort::INT))?;
    let mut sum = Many::new(alloc);
    sum.push(Part::Sort(10))?;
    sum.push(Part::Terminal(text_of(alloc, "+")?))?;
    sum.push(Part::Sort(10))?;
    let mut prods = Many::new(alloc);
    prods.push(production(number))?;
    prods.push(production(sum))?;
    Ok(Grammar::new(alloc, sorts(alloc)?, prods)?)
}

/// The configurations of a text, each behind the word `configuration`.
fn sentences_of(alloc: Global, text: &str, tokens: &[Token]) -> Result<Vec<Sentence>, Fail> {
    let mut sentences = Vec::new(alloc);
    let mut past = tokens.len();
    for (number, token) in tokens.iter().enumerate().rev() {
        if text.as_bytes().get(token.start..token.end) == Some(b"configuration".as_slice()) {
            let first = number.saturating_add(1);
            sentences.insert(0, Sentence::Config { first, past })?;
            past = number;
        }
    }
    Ok(sentences)
}

// ---- what is read, on one line

fn show_text(line: &mut String, text: &Text) -> Result<(), Fail> {
    Ok(line.push_str(str::from_utf8(text.as_slice()).unwrap_or("?"))?)
}

fn show_kind(alloc: Global, line: &mut String, kind: Kind) -> Result<(), Fail> {
    match kind {
        Kind::Cells => line.push_str(" cells")?,
        Kind::Seq => line.push_str(" seq")?,
        Kind::Map => line.push_str(" map")?,
        Kind::List => line.push_str(" list")?,
        Kind::One(sort) => line.push_str(&format!(in alloc; " one{sort}")?)?,
    }
    Ok(())
}

fn show_held(line: &mut String, held: Option<&Declared>) -> Result<(), Fail> {
    match held {
        Some(Declared::Program { .. }) => line.push_str(" pgm")?,
        Some(Declared::Input) => line.push_str(" in")?,
        Some(Declared::Fixed(_)) => {}
        None => {}
    }
    Ok(())
}

/// A cell: its name, `*` where it may occur more than once, the cell around it, what it contains, and a place that it declares.
fn show_cell(
    alloc: Global,
    line: &mut String,
    shape: &CellShape,
    held: Option<&Declared>,
) -> Result<(), Fail> {
    show_text(line, &shape.name)?;
    if shape.many {
        line.push_str("*")?;
    }
    if let Some(parent) = shape.parent {
        line.push_str(&format!(in alloc; "^{parent}")?)?;
    }
    show_kind(alloc, line, shape.kind)?;
    show_held(line, held)?;
    Ok(line.push_str("; ")?)
}

/// The cells, and behind them the cell `k` and the sort of programs.
fn show_tree(alloc: Global, line: &mut String, tree: &CellTree) -> Result<(), Fail> {
    let mut number = 0u32;
    for shape in tree.shapes() {
        show_cell(alloc, line, shape, tree.held(number))?;
        number = number.saturating_add(1);
    }
    let (k, sort) = (tree.cell_k(), tree.pgm_sort());
    Ok(line.push_str(&format!(in alloc; "k {k} of {sort}")?)?)
}

fn show_refusal(alloc: Global, line: &mut String, refusal: &CellRefusal) -> Result<(), Fail> {
    match refusal {
        CellRefusal::TwoCells { name } => {
            line.push_str("TwoCells ")?;
            show_text(line, name)
        }
        CellRefusal::NoK => Ok(line.push_str("NoK")?),
        CellRefusal::CellContent { name } => {
            line.push_str("CellContent ")?;
            show_text(line, name)
        }
        CellRefusal::TooMany { n, .. } => Ok(line.push_str(&format!(in alloc; "TooMany {n}")?)?),
        CellRefusal::Memory => Ok(line.push_str("Memory")?),
    }
}

/// What the configurations of a text are.
fn shown(alloc: Global, text: &str) -> Result<String, Fail> {
    let grammar = grammar(alloc)?;
    let mut names = Names::new(alloc);
    let bytes = text.as_bytes();
    let base = tokens(alloc, bytes)?;
    let sentences = sentences_of(alloc, text, &base)?;
    let mut line = String::new(alloc);
    match read_cells(alloc, &grammar, &mut names, bytes, &base, &sentences) {
        Ok(tree) => show_tree(alloc, &mut line, &tree)?,
        Err(refusal) => show_refusal(alloc, &mut line, &refusal)?,
    }
    Ok(line)
}

/// The text of configurations, and what they are.
type Case = (&'static str, &'static str);

/// What is otherwise than it should be, and nothing where all is right.
fn otherwise(alloc: Global, cases: &[Case]) -> Result<String, Fail> {
    let mut line = String::new(alloc);
    for (text, wanted) in cases {
        let found = shown(alloc, text)?;
        if found.as_str() != *wanted {
            line.push_str(&format!(in alloc; "{text}: {found} for {wanted}\n")?)?;
        }
    }
    Ok(line)
}

const TREES: [Case; 6] = [
    ("configuration <k> $PGM:Pgm </k>", "k seq pgm; k 0 of 10"),
    (
        "configuration <T color=\"red\"> <k> $PGM:K </k> <s> .Map </s> </T>",
        "T cells; k^0 seq pgm; s^0 map; k 1 of 0",
    ),
    (
        "configuration <T> <ts> <t multiplicity=\"*\"> <k> $PGM:Pgm </k> </t> </ts> <in> $IN:List </in> <i> $IN:List </i> </T>",
        "T cells; ts^0 cells; t*^1 cells; k^2 seq pgm; in^0 list in; i^0 list in; k 3 of 10",
    ),
    // A content of each form.
    (
        "configuration <T> <n> 5 </n> <b> true </b> <s> \"x\" </s> <d> . </d> <K> .K </K> <k> $PGM:Pgm </k> </T>",
        "T cells; n^0 one3; b^0 one4; s^0 one5; d^0 seq; K^0 seq; k^0 seq pgm; k 6 of 10",
    ),
    (
        "configuration <T> <x> x </x> <q> x ~> 1 + 2 </q> <m> 1 |-> 2 x |-> 4 </m> <k> $PGM:Pgm </k> </T>",
        "T cells; x^0 seq; q^0 seq; m^0 map; k^0 seq pgm; k 4 of 10",
    ),
    (
        "configuration <T> <e> .List </e> <l> ListItem(1) ListItem(x) </l> <k multiplicity=\"*\"> $PGM:Pgm </k> </T>",
        "T cells; e^0 list; l^0 list; k*^0 seq pgm; k 3 of 10",
    ),
];

const REFUSALS: [Case; 38] = [
    // A name twice.
    (
        "configuration <T> <k> $PGM:Pgm </k> <a> 1 </a> <a> 2 </a> </T>",
        "TwoCells a",
    ),
    ("configuration <k> <k> $PGM:Pgm </k> </k>", "TwoCells k"),
    (
        "configuration <T> <b> 1 </b> <a> 1 </a> <a> 2 </a> <b> 2 </b> </T>",
        "TwoCells a",
    ),
    // Before the place at which the text is none, and behind it.
    (
        "configuration <T> <k> $PGM:Pgm </k> <k> 1 </k> x </T>",
        "TwoCells k",
    ),
    (
        "configuration <T> <k> $PGM:Pgm </k> x <k> 1 </k> </T>",
        "CellContent T",
    ),
    (
        "configuration <T> <k> ( </k> <k> $PGM:Pgm </k> </T>",
        "CellContent k",
    ),
    (
        "configuration <T> <k> $PGM:Pgm <k> </k> </k> </T>",
        "CellContent k",
    ),
    // A tag that is begun.
    (
        "configuration <T> <k> $PGM:Pgm </k> <k size=\"1\"> 1 </k> </T>",
        "TwoCells k",
    ),
    (
        "configuration <T> <k> $PGM:Pgm </k> < k> 1 </k> </T>",
        "CellContent T",
    ),
    ("configuration <T> <T size=\"1\"> </T>", "TwoCells T"),
    ("configuration <T> <T size=\"1\"> </k>", "TwoCells T"),
    (
        "configuration <T> <k size=\"1\"> 1 </k> </T>",
        "CellContent T",
    ),
    ("configuration <T> 1 <T size=\"1\"> </T>", "CellContent T"),
    // Two configurations.
    (
        "configuration <k> $PGM:Pgm </k> configuration <a> 1 </a>",
        "TwoCells a",
    ),
    (
        "configuration <k> $PGM:Pgm </k> configuration <k> $PGM:Pgm </k>",
        "TwoCells k",
    ),
    (
        "configuration <T> <a> 1 </a> <a> 1 </a> </T> configuration <b> 1 </b>",
        "TwoCells a",
    ),
    ("configuration x configuration <a> 1 </a>", "TwoCells a"),
    (
        "configuration <k> $PGM:Pgm </k> configuration <a multiplicity=\"*\"> 1 </a>",
        "TwoCells a",
    ),
    (
        "configuration <k> $PGM:Pgm </k> configuration x <a> 1 </a>",
        "CellContent ",
    ),
    (
        "configuration <k> $PGM:Pgm </k> configuration x configuration <a> 1 </a>",
        "TwoCells a",
    ),
    // No program.
    ("", "NoK"),
    ("configuration <a> 1 </a>", "NoK"),
    ("configuration <k> 1 </k>", "NoK"),
    ("configuration <a> $PGM:Pgm </a>", "NoK"),
    (
        "configuration <T> <a> $PGM:Pgm </a> <k> .K </k> </T>",
        "NoK",
    ),
    ("configuration <a> 1 </a> configuration x", "CellContent "),
    // The program outside `k`.
    (
        "configuration <T> <k> $PGM:Pgm </k> <a> $PGM:Pgm </a> </T>",
        "CellContent a",
    ),
    (
        "configuration <T> <a> $PGM:Pgm </a> <b> ( </b> </T>",
        "CellContent a",
    ),
    (
        "configuration <T> <b> ( </b> <a> $PGM:Pgm </a> </T>",
        "CellContent b",
    ),
    // The text of a configuration is none.
    (
        "configuration <k multiplicity=\"*\"> $PGM:Pgm </k>",
        "CellContent ",
    ),
    ("configuration <k> $PGM:Pgm </k> x", "CellContent "),
    ("configuration <T> <k> $PGM:Pgm </k>", "CellContent T"),
    ("configuration <T> <k> $PGM:Pgm </T>", "CellContent k"),
    ("configuration <k> $PGM:Foo </k>", "CellContent k"),
    (
        "configuration <T> <k> $PGM:Pgm </k> <a> </a> </T>",
        "CellContent a",
    ),
    (
        "configuration <T> <k> $PGM:Pgm </k> <m> 1 |-> 2 1 |-> 3 </m> </T>",
        "CellContent m",
    ),
    ("configuration <k> . ~> x </k>", "CellContent k"),
    (
        "configuration <T> <k> $PGM:Pgm </k> <a> 1 + 2 + 3 </a> </T>",
        "CellContent a",
    ),
];

/// Configurations that are trees.
#[test]
fn reads_trees(rt: HostRuntime) -> Result<(), Fail> {
    assert_eq!(rt; otherwise(rt.alloc(), &TREES)?.as_str(), "");
    Ok(())
}

/// Configurations that are refused.
#[test]
fn refuses(rt: HostRuntime) -> Result<(), Fail> {
    assert_eq!(rt; otherwise(rt.alloc(), &REFUSALS)?.as_str(), "");
    Ok(())
}

/// A configuration with `k` and more cells beside it, all in one.
fn with_cells(alloc: Global, more: u32) -> Result<String, Fail> {
    let mut text = String::from_str(alloc, "configuration <T> <k> $PGM:Pgm </k>")?;
    for number in 0..more {
        text.push_str(&format!(in alloc; " <c{number}> 1 </c{number}>")?)?;
    }
    text.push_str(" </T>")?;
    Ok(text)
}

/// At most 64 cells.
#[test]
fn counts_cells(rt: HostRuntime) -> Result<(), Fail> {
    let alloc = rt.alloc();
    let line = shown(alloc, with_cells(alloc, 62)?.as_str())?;
    assert!(rt; line.as_str().ends_with("; k 1 of 10"));
    let line = shown(alloc, with_cells(alloc, 63)?.as_str())?;
    assert_eq!(rt; line.as_str(), "TooMany 65");
    Ok(())
}
