ghost use Rattle.std.specs.Prelude.{◌≤◌, length, IfOk};

use cell_tokens::{CellKind, CellToken, split_cells};
use grammar_terms::{Grammar, Part, Production};
use k_lexer::tokens;
use k_terms::{Many, Names, Text, sort};
use production_reader::{Attrs, Form, Strict};
use std::alloc::Global;
use std::test::Fail;

fn text_of(alloc: Global, text: &str) -> Result<Text, Fail> {
    Ok(Text::from_vec(Vec::from_slice(alloc, text.as_bytes())?))
}

/// The built-in sorts, and one more.
fn sorts(alloc: Global) -> Result<Many<Text>, Fail>
    ensures { IfOk result (λ names. length names ≤ 11) }
{
    let mut names = Many::new(alloc);
    for name in "K KItem KResult Int Bool String Id Map List Bag Pgm".split_ascii_whitespace() {
        names.push(text_of(alloc, name)?)?;
    }
    if names.len() > 11 {
        return Ok(Many::new(alloc));
    }
    Ok(names)
}

/// A grammar with a production of these terminals.
fn grammar(alloc: Global, terminals: &str) -> Result<Grammar, Fail> {
    let mut items = Many::new(alloc);
    for terminal in terminals.split_ascii_whitespace() {
        items.push(Part::Terminal(text_of(alloc, terminal)?))?;
    }
    items.push(Part::Sort(sort::INT))?;
    let attrs = Attrs {
        left: false,
        right: false,
        non_assoc: false,
        bracket: false,
        strict: Strict::No,
        seqstrict: false,
    };
    let mut prods = Many::new(alloc);
    prods.push(Production {
        sort: 10,
        sentence: 0,
        group: 0,
        items,
        attrs,
        form: Form::Plain,
    })?;
    Ok(Grammar::new(alloc, sorts(alloc)?, prods)?)
}

/// A text with a mark before it.
fn marked(alloc: Global, mark: &str, text: &Text) -> Result<String, Fail> {
    let text = str::from_utf8(text.as_slice()).unwrap_or("?");
    Ok(format!(in alloc; "{mark}{text}")?)
}

fn open_shown(alloc: Global, name: &Text, many: bool) -> Result<String, Fail> {
    let mut line = marked(alloc, "<", name)?;
    if many {
        line.push_str("*")?;
    }
    Ok(line)
}

fn dot_shown(alloc: Global, sort: Option<u32>) -> Result<String, Fail> {
    match sort {
        Some(sort) => Ok(format!(in alloc; "dot{sort}")?),
        None => Ok(String::from_str(alloc, "dot")?),
    }
}

/// What is shown of a token that says no more than its kind.
fn fixed_shown(alloc: Global, kind: &CellKind) -> Result<String, Fail> {
    let text = match kind {
        CellKind::Input => "input",
        CellKind::Then => "then",
        CellKind::MapsTo => "maps",
        CellKind::ListItem => "item",
        CellKind::LeftBracket => "left",
        CellKind::RightBracket => "right",
        CellKind::Literal(_) => "word",
        _ => "bad",
    };
    Ok(String::from_str(alloc, text)?)
}

fn kind_shown(alloc: Global, kind: &CellKind) -> Result<String, Fail> {
    match kind {
        CellKind::Open { name, many } => open_shown(alloc, name, *many),
        CellKind::Close { name } => marked(alloc, "/", name),
        CellKind::Program(sort) => Ok(format!(in alloc; "program{sort}")?),
        CellKind::Dot(sort) => dot_shown(alloc, *sort),
        CellKind::Terminal(text) => marked(alloc, "'", text),
        _ => fixed_shown(alloc, kind),
    }
}

/// The tokens of a text over a grammar with these terminals.
fn split_of(alloc: Global, terminals: &str, text: &str) -> Result<Many<CellToken>, Fail> {
    let grammar = grammar(alloc, terminals)?;
    let mut names = Names::new(alloc);
    let bytes = text.as_bytes();
    let base = tokens(alloc, bytes)?;
    let found = split_cells(alloc, &grammar, &mut names, bytes, &base)?;
    Ok(found)
}

/// The tokens, each with the number of its base tokens, on one line.
fn split_shown(alloc: Global, terminals: &str, text: &str) -> Result<String, Fail> {
    let found = split_of(alloc, terminals, text)?;
    let mut line = String::new(alloc);
    for token in found.as_slice() {
        let kind = kind_shown(alloc, &token.kind)?;
        let size = token.size;
        line.push_str(&format!(in alloc; "{kind}:{size} ")?)?;
    }
    Ok(line)
}

/// The terminals of a grammar, a text, and the tokens of the text.
type Case = (&'static str, &'static str, &'static str);

const SPLITS: [Case; 30] = [
    ("+", "<k> $PGM:Pgm </k>", "<k:3 program10:4 /k:4 "),
    ("+", "<k>$PGM:Pgm</k>", "<k:3 program10:4 /k:4 "),
    ("+", "<k color=\"green\"> x </k>", "<k:6 word:1 /k:4 "),
    ("+", "<k multiplicity=\"*\"> x", "<k*:6 word:1 "),
    ("+", "<k color=\"\" multiplicity=\"*\">", "<k*:9 "),
    (
        "+",
        "<k multiplicity=\"*\"color=\"x\"\n\tcolor=\"y\">",
        "<k*:12 ",
    ),
    // Blanks, or a comment, where none may stand.
    ("<", "< k>", "'<:1 word:1 bad:1 "),
    ("<", "<k >", "'<:1 word:1 bad:1 "),
    (
        "<",
        "<k/**/color=\"x\">",
        "'<:1 word:1 word:1 bad:1 word:1 bad:1 ",
    ),
    (
        "<",
        "<k color =\"x\">",
        "'<:1 word:1 word:1 bad:1 word:1 bad:1 ",
    ),
    (
        "<",
        "<k color= \"x\">",
        "'<:1 word:1 word:1 bad:1 word:1 bad:1 ",
    ),
    ("<", "</ k>", "'<:1 bad:1 word:1 bad:1 "),
    ("<", "</k >", "'<:1 bad:1 word:1 bad:1 "),
    // No attribute.
    (
        "<",
        "<k size=\"x\">",
        "'<:1 word:1 word:1 bad:1 word:1 bad:1 ",
    ),
    (
        "<",
        "<k multiplicity=\"?\">",
        "'<:1 word:1 word:1 bad:1 word:1 bad:1 ",
    ),
    ("<", "<k color=x>", "'<:1 word:1 word:1 bad:1 word:1 bad:1 "),
    ("+", "<k", "bad:1 word:1 "),
    // Marks and words of contents.
    (
        "+",
        "1 ~> x |-> . .K .Map .List .Bag",
        "word:1 then:2 word:1 maps:3 dot:1 dot0:2 dot7:2 dot8:2 dot:1 word:1 ",
    ),
    ("+", "ListItem(1)", "item:1 left:1 word:1 right:1 "),
    ("( )", "ListItem(1)", "item:1 '(:1 word:1 '):1 "),
    (
        "ListItem",
        "ListItem(1)",
        "'ListItem:1 left:1 word:1 right:1 ",
    ),
    (
        "+",
        "$IN:List $IN:Map",
        "input:4 bad:1 word:1 bad:1 word:1 ",
    ),
    (
        "+",
        "$PGM:K $PGM:Foo $PGM :K",
        "program0:4 bad:1 word:1 bad:1 word:1 bad:1 word:1 bad:1 word:1 ",
    ),
    ("$ :", "$PGM:Foo", "'$:1 word:1 '::1 word:1 "),
    // The longest terminal, which can take a tag's first mark.
    ("+ +<", "x +</k>", "word:1 '+<:2 bad:1 word:1 bad:1 "),
    ("+ </", "x +</k>", "word:1 '+:1 /k:4 "),
    ("X", "X Y _ true \"s\"", "'X:1 word:1 word:1 word:1 word:1 "),
    (
        "+",
        "170141183460469231731687303715884105727 170141183460469231731687303715884105728",
        "word:1 bad:1 ",
    ),
    ("12", "12 13", "'12:1 word:1 "),
    ("+", "", ""),
];

/// What is split otherwise than it should be, and nothing where all is right.
fn otherwise(alloc: Global, cases: &[Case]) -> Result<String, Fail> {
    let mut line = String::new(alloc);
    for (terminals, text, wanted) in cases {
        let found = split_shown(alloc, terminals, text)?;
        if found.as_str() != *wanted {
            line.push_str(&format!(in alloc; "{text}: {found} for {wanted}; ")?)?;
        }
    }
    Ok(line)
}

/// Texts and their tokens.
#[test]
fn splits(rt: HostRuntime) -> Result<(), Fail> {
    assert_eq!(rt; otherwise(rt.alloc(), &SPLITS)?.as_str(), "");
    Ok(())
}
