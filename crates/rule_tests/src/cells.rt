ghost use Rattle.std.specs.Prelude.{◌≤◌, length, IfOk};

use grammar_terms::{Grammar, Part, Production};
use k_lexer::tokens;
use k_terms::{Many, Names, Text, sort};
use production_reader::{Attrs, Form, Strict};
use rule_cells::{Cell, FormFault, Inside, Item, RuleForm, Side, read_form};
use rule_terms::{CellShape, Kind};
use rule_tokens::split_rule;
use std::alloc::Global;
use std::test::Fail;

fn text_of(alloc: Global, text: &str) -> Result<Text, Fail> {
    Ok(Text::from_vec(Vec::from_slice(alloc, text.as_bytes())?))
}

/// A production with these terminals and a sort.
fn production(alloc: Global, terminals: &[&str]) -> Result<Production, Fail> {
    let mut items = Many::new(alloc);
    for terminal in terminals {
        items.push(Part::Terminal(text_of(alloc, terminal)?))?;
    }
    items.push(Part::Sort(sort::INT))?;
    let attrs = Attrs {
        left: false,
        right: false,
        non_assoc: false,
        bracket: false,
        strict: Strict::No,
        seqstrict: false,
    };
    Ok(Production {
        sort: 10,
        sentence: 0,
        group: 0,
        items,
        attrs,
        form: Form::Plain,
    })
}

/// The built-in sorts and those of the rules.
fn sorts(alloc: Global) -> Result<Many<Text>, Fail>
    ensures { IfOk result (λ names. length names ≤ 14) }
{
    let mut names = Many::new(alloc);
    for name in [
        "K", "KItem", "KResult", "Int", "Bool", "String", "Id", "Map", "List", "Bag", "Stmt",
        "Ids", "Cmd", "Cmds",
    ] {
        names.push(text_of(alloc, name)?)?;
    }
    if names.len() > 14 {
        return Ok(Many::new(alloc));
    }
    Ok(names)
}

/// A grammar with these sorts, and with the terminals of the rules.
fn grammar(alloc: Global) -> Result<Grammar, Fail> {
    let mut prods = Many::new(alloc);
    prods.push(production(alloc, &["int", ",", ";", "=", "{", "}", "/", "(", ")"])?)?;
    prods.push(production(
        alloc,
        &[
            "get", "set", "new", "count", "quit", "pair", "kill", "spawn",
        ],
    )?)?;
    prods.push(production(
        alloc,
        &["/Int", "=/=Int", ">Int", "notBool", "in", "keys", "size"],
    )?)?;
    Ok(Grammar::new(alloc, sorts(alloc)?, prods)?)
}

/// The declared cells: three of cells, and four with contents.
fn cells(alloc: Global) -> Result<Many<CellShape>, Fail>
    ensures { IfOk result (λ cells. length cells ≤ 7) }
{
    let mut cells = Many::new(alloc);
    for (name, kind) in [
        ("T", Kind::Cells),
        ("threads", Kind::Cells),
        ("thread", Kind::Cells),
        ("k", Kind::Seq),
        ("env", Kind::Map),
        ("mem", Kind::Map),
        ("state", Kind::Map),
    ] {
        cells.push(CellShape {
            name: text_of(alloc, name)?,
            parent: None,
            many: false,
            kind,
        })?;
    }
    if cells.len() > 7 {
        return Ok(Many::new(alloc));
    }
    Ok(cells)
}

fn name_of(cell: u32) -> &'static str {
    match cell {
        0 => "T",
        1 => "threads",
        2 => "thread",
        3 => "k",
        4 => "env",
        5 => "mem",
        _ => "state",
    }
}

/// Shows the items of cells one after the other.
#[cycle(showing)]
fn show_items(alloc: Global, line: &mut String, items: &[Item]) -> Result<(), Fail> {
    for item in items {
        show_item(alloc, line, item)?;
    }
    Ok(())
}

#[cycle(showing)]
fn show_item(alloc: Global, line: &mut String, item: &Item) -> Result<(), Fail> {
    match item {
        Item::Cell(cell) => show_cell(alloc, line, cell),
        Item::Change { start, left, right } => {
            line.push_str(&format!(in alloc; "(@{start} ")?)?;
            show_items(alloc, line, left.as_slice())?;
            line.push_str("=> ")?;
            show_items(alloc, line, right.as_slice())?;
            line.push_str(") ")?;
            Ok(())
        }
        Item::Nothing { at } => {
            line.push_str(&format!(in alloc; ".@{at} ")?)?;
            Ok(())
        }
    }
}

/// Shows a cell: its name, its opening tag, L for `...` at its left, what it holds, and R for `...` at its right.
#[cycle(showing)]
fn show_cell(alloc: Global, line: &mut String, cell: &Cell) -> Result<(), Fail> {
    line.push_str(&format!(in alloc; "{}@{}{{", name_of(cell.cell), cell.start)?)?;
    if cell.left_dots {
        line.push_str("L ")?;
    }
    show_inside(alloc, line, &cell.inside)?;
    if cell.right_dots {
        line.push_str("R ")?;
    }
    line.push_str("} ")?;
    Ok(())
}

/// Shows a content as a range of tokens.
#[cycle(showing)]
fn show_inside(alloc: Global, line: &mut String, inside: &Inside) -> Result<(), Fail> {
    match inside {
        Inside::Cells(side) => show_side(alloc, line, side),
        Inside::Content { first, past } => {
            line.push_str(&format!(in alloc; "{first}-{past} ")?)?;
            Ok(())
        }
    }
}

#[cycle(showing)]
fn show_side(alloc: Global, line: &mut String, side: &Side) -> Result<(), Fail> {
    match side {
        Side::Same(items) => show_items(alloc, line, items.as_slice()),
        Side::Change(left, right) => {
            show_items(alloc, line, left.as_slice())?;
            line.push_str("=> ")?;
            show_items(alloc, line, right.as_slice())
        }
    }
}

fn shown(alloc: Global, form: &RuleForm) -> Result<String, Fail> {
    let mut line = String::new(alloc);
    show_inside(alloc, &mut line, &form.body)?;
    if let Some((first, past)) = form.condition {
        line.push_str(&format!(in alloc; "when {first}-{past} ")?)?;
    }
    Ok(line)
}

/// How the text of a rule is divided, or where it isn't.
fn form_shown(alloc: Global, text: &str) -> Result<String, Fail> {
    let mut names = Names::new(alloc);
    let grammar = grammar(alloc)?;
    let cells = cells(alloc)?;
    let bytes = text.as_bytes();
    let base = tokens(alloc, bytes)?;
    let split = split_rule(alloc, &grammar, cells.as_slice(), &mut names, bytes, &base)?;
    if let Some(at) = split.bad {
        return Ok(format!(in alloc; "bad {at}")?);
    }
    match read_form(alloc, cells.as_slice(), bytes, split.tokens.as_slice()) {
        Ok(form) => shown(alloc, &form),
        Err(FormFault::NoReading { at }) => Ok(format!(in alloc; "none {at}")?),
        Err(FormFault::Memory) => Ok(String::from_str(alloc, "memory")?),
    }
}

#[test]
fn divides_rules(rt: HostRuntime) -> Result<(), Fail> {
    let cases = [
        (
            "<k> X:Id => I ...</k> <state>... X |-> I:Int ...</state>",
            "k@0{1-4 R } state@6{L 8-11 R } ",
        ),
        (
            "I1:Int / I2:Int => I1 /Int I2 when I2 =/=Int 0",
            "0-7 when 8-11 ",
        ),
        ("{} => .", "0-4 "),
        (
            "<k> X:Id = I:Int ; => . ...</k> <state>... X |-> (_ => I) ...</state>",
            "k@0{1-7 R } state@9{L 11-18 R } ",
        ),
        (
            "<k> int X:Id , Xs:Ids ; S:Stmt => int Xs ; S ...</k> <state> Rho:Map (.Map => X |-> 0) </state> when notBool (X in keys(Rho))",
            "k@0{1-12 R } state@14{15-23 } when 25-34 ",
        ),
        ("C:Cmd ; Cs:Cmds => C ~> Cs", "0-7 "),
        (".Cmds => .", "0-3 "),
        (
            "<k> get X:Id => . ...</k> <mem>... X |-> _ ...</mem>",
            "k@0{1-5 R } mem@7{L 9-12 R } ",
        ),
        (
            "<k> new X:Id N:Int => . ...</k> <mem>... (.Map => X |-> N) ...</mem>",
            "k@0{1-6 R } mem@8{L 10-17 R } ",
        ),
        (
            "<k> count => . ...</k> <mem> M:Map </mem> when size(M) >Int 0",
            "k@0{1-4 R } mem@6{7-8 } when 10-16 ",
        ),
        (
            "<thread>... <k> spawn { Cs:Cmds } => . ...</k> <env> E:Map </env> ...</thread> (.Bag => <thread> <k> Cs </k> <env> E </env> </thread>)",
            "thread@0{L k@2{3-9 R } env@11{12-13 } R } (@16 .@17 => thread@19{k@20{21-22 } env@23{24-25 } } ) ",
        ),
        (
            "(<thread>... <k> quit ...</k> ...</thread> => .Bag)",
            "(@0 thread@1{L k@3{4-5 R } R } => .@10 ) ",
        ),
        (
            "<threads> <thread>... <k> pair => . ...</k> ...</thread> <thread>...</thread> </threads>",
            "threads@0{thread@1{L k@3{4-7 R } R } thread@11{R } } ",
        ),
        (
            "<k> kill => . ...</k> (<thread>... <k> get _ ...</k> ...</thread> => .Bag)",
            "k@0{1-4 R } (@6 thread@7{L k@9{10-12 R } R } => .@17 ) ",
        ),
    ];
    for (text, want) in cases {
        assert_eq!(rt; form_shown(rt.alloc(), text)?.as_str(), want);
    }
    Ok(())
}

#[test]
fn divides_bodies(rt: HostRuntime) -> Result<(), Fail> {
    let cases = [
        ("<thread>...</thread>", "thread@0{R } "),
        ("<thread>... ...</thread>", "thread@0{L R } "),
        ("<thread></thread>", "thread@0{} "),
        ("<k>...</k>", "k@0{1-1 R } "),
        ("<k>... ...</k>", "k@0{L 2-2 R } "),
        ("<k></k>", "k@0{1-1 } "),
        ("<k>... x</k>", "k@0{L 2-3 } "),
        (".Bag => <thread>...</thread>", ".@0 => thread@2{R } "),
        ("<k> x </k> => .", "k@0{1-2 } => .@4 "),
        (
            "(. => (<k> x </k> => .Bag))",
            "(@0 .@1 => (@3 k@4{5-6 } => .@8 ) ) ",
        ),
        (
            "<T> <k> x </k> => <k> y </k> </T>",
            "T@0{k@1{2-3 } => k@5{6-7 } } ",
        ),
        ("<T> ... => . ... </T>", "T@0{L => .@3 R } "),
        ("( => ) .Bag", "(@0 => ) .@3 "),
        (". <k> x </k> .", ".@0 k@1{2-3 } .@4 "),
        ("<k> ( => ) . .Bag </k>", "k@0{1-6 } "),
        (".Bag", ".@0 "),
        (". ~> .", "0-3 "),
        ("( ... )", "0-3 "),
        ("", "0-0 "),
        ("when true", "0-0 when 1-2 "),
        ("requires true when x", "0-0 when 1-4 "),
        ("x when", "0-1 when 2-2 "),
        ("\"when\" x", "0-2 "),
        ("x when <k> y", "0-1 when 2-4 "),
    ];
    for (text, want) in cases {
        assert_eq!(rt; form_shown(rt.alloc(), text)?.as_str(), want);
    }
    Ok(())
}

#[test]
fn finds_places(rt: HostRuntime) -> Result<(), Fail> {
    let cases = [
        ("<T> x </T>", "none 4"),
        ("<k> <env> x </env> </k>", "none 4"),
        ("<k> x ... y </k>", "none 10"),
        ("<k> ... ... x </k>", "none 12"),
        ("<T> ... ... <k> x </k> </T>", "none 12"),
        ("<T> <k> x ...</k> ... <k> y </k> </T>", "none 22"),
        ("<k> x </env>", "none 6"),
        ("<k> x </k> </k>", "none 11"),
        ("</k> x", "none 0"),
        ("<k> x", "none 5"),
        ("<k> x when true", "none 5"),
        ("(<k> x </k> => .Bag when true", "none 19"),
        ("(<k> x </k>)", "none 11"),
        ("<k> x </k> => . => .Bag", "none 16"),
        ("(. => . => .Bag)", "none 8"),
        (".Bag )", "none 5"),
        (".Bag x", "none 5"),
        ("x .Bag", "none 0"),
        ("... .Bag", "none 0"),
        (".Bag ...", "none 5"),
        ("<T> (. => </T>)", "none 10"),
        ("<T> (. => ... ) </T>", "none 10"),
    ];
    for (text, want) in cases {
        assert_eq!(rt; form_shown(rt.alloc(), text)?.as_str(), want);
    }
    Ok(())
}
