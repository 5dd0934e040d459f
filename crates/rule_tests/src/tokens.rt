ghost use Rattle.std.specs.Prelude.{◌≤◌, length, IfOk};

use grammar_terms::{Grammar, Part, Production};
use k_lexer::tokens;
use k_terms::{Many, Names, Symbol, Text, Value, sort};
use production_reader::{Attrs, Form, Strict};
use rule_terms::{CellShape, Kind};
use rule_tokens::{RuleKind, RuleSplit, RuleToken, VariableFault, split_rule, variable_sorts};
use std::alloc::Global;
use std::test::Fail;

fn text_of(alloc: Global, text: &str) -> Result<Text, Fail> {
    Ok(Text::from_vec(Vec::from_slice(alloc, text.as_bytes())?))
}

/// A production with these terminals and a sort.
fn production(alloc: Global, terminals: &[&str]) -> Result<Production, Fail> {
    let mut items = Many::new(alloc);
    for terminal in terminals {
        items.push(Part::Terminal(text_of(alloc, terminal)?))?;
    }
    items.push(Part::Sort(sort::INT))?;
    let attrs = Attrs {
        left: false,
        right: false,
        non_assoc: false,
        bracket: false,
        strict: Strict::No,
        seqstrict: false,
    };
    Ok(Production {
        sort: 10,
        sentence: 0,
        group: 0,
        items,
        attrs,
        form: Form::Plain,
    })
}

/// The built-in sorts and Exp.
fn sorts(alloc: Global) -> Result<Many<Text>, Fail>
    ensures { IfOk result (λ names. length names ≤ 11) }
{
    let mut names = Many::new(alloc);
    for name in [
        "K", "KItem", "KResult", "Int", "Bool", "String", "Id", "Map", "List", "Bag", "Exp",
    ] {
        names.push(text_of(alloc, name)?)?;
    }
    if names.len() > 11 {
        return Ok(Many::new(alloc));
    }
    Ok(names)
}

/// A grammar with these sorts, and with some terminals of its own and some builtin ones.
fn grammar(alloc: Global) -> Result<Grammar, Fail> {
    let mut prods = Many::new(alloc);
    prods.push(production(alloc, &["=", "==", ";", "if", "Skip", "{", "}", ","])?)?;
    prods.push(production(
        alloc,
        &["+", "+Int", "<", "<Int", "<=Int", "=/=Int", "notBool"],
    )?)?;
    prods.push(production(alloc, &["(", ")", "[", "<-", "]", "in", "keys", "::"])?)?;
    Ok(Grammar::new(alloc, sorts(alloc)?, prods)?)
}

/// The declared cells T, k and state.
fn cells(alloc: Global) -> Result<Many<CellShape>, Fail>
    ensures { IfOk result (λ cells. length cells ≤ 3) }
{
    let mut cells = Many::new(alloc);
    for name in ["T", "k", "state"] {
        cells.push(CellShape {
            name: text_of(alloc, name)?,
            parent: None,
            many: false,
            kind: Kind::Cells,
        })?;
    }
    if cells.len() > 3 {
        return Ok(Many::new(alloc));
    }
    Ok(cells)
}

fn string_of(alloc: Global, text: &Text) -> Result<String, Fail> {
    match std::str::from_utf8(text.as_slice()) {
        Ok(text) => Ok(String::from_str(alloc, text)?),
        Err(_) => Ok(String::from_str(alloc, "(no UTF-8)")?),
    }
}

fn value_shown(alloc: Global, value: &Value) -> Result<String, Fail> {
    match value {
        Value::Int(number) => Ok(format!(in alloc; "{number}")?),
        Value::Bool(truth) => Ok(format!(in alloc; "{truth}")?),
        Value::Str(text) => {
            let text = string_of(alloc, text)?;
            Ok(format!(in alloc; "\"{text}\"")?)
        }
        Value::Id(Symbol(number)) => Ok(format!(in alloc; "#{number}")?),
        _ => Ok(String::from_str(alloc, "(other)")?),
    }
}

fn number_shown(alloc: Global, sort: Option<u32>) -> Result<String, Fail> {
    match sort {
        Some(sort) => Ok(format!(in alloc; "{sort}")?),
        None => Ok(String::from_str(alloc, "-")?),
    }
}

fn name_shown(alloc: Global, name: Option<Symbol>) -> Result<String, Fail> {
    match name {
        Some(Symbol(number)) => Ok(format!(in alloc; "{number}")?),
        None => Ok(String::from_str(alloc, "_")?),
    }
}

fn variable_shown(alloc: Global, name: Option<Symbol>, sort: Option<u32>) -> Result<String, Fail> {
    let name = name_shown(alloc, name)?;
    let sort = number_shown(alloc, sort)?;
    Ok(format!(in alloc; "var({name},{sort})")?)
}

fn fixed_shown(alloc: Global, kind: &RuleKind) -> Result<String, Fail> {
    let text = match kind {
        RuleKind::Rewrite => "rewrite",
        RuleKind::Then => "then",
        RuleKind::MapsTo => "maps",
        RuleKind::Dots => "dots",
        RuleKind::ListItem => "item",
        _ => "?",
    };
    Ok(String::from_str(alloc, text)?)
}

fn kind_shown(alloc: Global, kind: &RuleKind) -> Result<String, Fail> {
    match kind {
        RuleKind::Open(cell) => Ok(format!(in alloc; "open({cell})")?),
        RuleKind::Close(cell) => Ok(format!(in alloc; "close({cell})")?),
        RuleKind::Dot(sort) => {
            let sort = number_shown(alloc, *sort)?;
            Ok(format!(in alloc; "dot({sort})")?)
        }
        RuleKind::Terminal(text) => {
            let text = string_of(alloc, text)?;
            Ok(format!(in alloc; "'{text}'")?)
        }
        RuleKind::Literal(value) => value_shown(alloc, value),
        RuleKind::Variable { name, sort } => variable_shown(alloc, *name, *sort),
        _ => fixed_shown(alloc, kind),
    }
}

fn token_shown(alloc: Global, token: &RuleToken) -> Result<String, Fail> {
    let kind = kind_shown(alloc, &token.kind)?;
    Ok(format!(in alloc; "{kind}@{}-{} ", token.start, token.end)?)
}

/// Each token with its places, and then the bad and the wide place.
fn shown(alloc: Global, split: &RuleSplit) -> Result<String, Fail> {
    let mut line = String::new(alloc);
    for token in split.tokens.as_slice() {
        line.push_str(&token_shown(alloc, token)?)?;
    }
    if let Some(at) = split.bad {
        line.push_str(&format!(in alloc; "bad {at} ")?)?;
    }
    if let Some(at) = split.wide {
        line.push_str(&format!(in alloc; "wide {at} ")?)?;
    }
    Ok(line)
}

/// The text of a rule as tokens, its words numbered behind others.
fn split_of(alloc: Global, names: &mut Names, text: &str) -> Result<RuleSplit, Fail> {
    let grammar = grammar(alloc)?;
    let cells = cells(alloc)?;
    let bytes = text.as_bytes();
    let base = tokens(alloc, bytes)?;
    let split = split_rule(alloc, &grammar, cells.as_slice(), names, bytes, &base)?;
    Ok(split)
}

/// The tokens of a text, whose words are numbered behind the word `x`.
fn split_shown(alloc: Global, text: &str) -> Result<String, Fail> {
    let mut names = Names::new(alloc);
    names.number(alloc, "x")?;
    let split = split_of(alloc, &mut names, text)?;
    shown(alloc, &split)
}

#[test]
fn reads_marks_and_tags(rt: HostRuntime) -> Result<(), Fail> {
    let cases = [
        ("", ""),
        ("=> ~> |-> ...", "rewrite@0-2 then@3-5 maps@6-9 dots@10-13 "),
        ("....", "dots@0-3 dot(-)@3-4 "),
        (
            ". .Map .K .Nope . Map",
            "dot(-)@0-1 dot(7)@2-6 dot(0)@7-9 dot(-)@10-11 var(3,-)@11-15 dot(-)@16-17 var(1,-)@18-21 ",
        ),
        ("..Exp", "dot(-)@0-1 dot(10)@1-5 "),
        (
            "<k> </k> <T></state>",
            "open(1)@0-3 close(1)@4-8 open(0)@9-12 close(2)@12-20 ",
        ),
        ("< k>", "'<'@0-1 #1@2-3 bad 3 "),
        ("<k >", "'<'@0-1 #1@1-2 bad 3 "),
        ("<j>", "'<'@0-1 #1@1-2 bad 2 "),
        ("</ k>", "'<'@0-1 bad 1 "),
        (
            "<Int I <Int 3",
            "'<Int'@0-4 var(2,-)@5-6 '<Int'@7-11 3@12-13 ",
        ),
        ("==> ===", "'=='@0-2 bad 2 "),
        ("=== =>", "'=='@0-2 '='@2-3 rewrite@4-6 "),
        ("=/=Int =/= Int", "'=/=Int'@0-6 '='@7-8 bad 8 "),
        (
            "+Integer +Int + Int +/**/Int",
            "'+'@0-1 var(1,-)@1-8 '+Int'@9-13 '+'@14-15 var(2,-)@16-19 '+'@20-21 var(2,-)@25-28 ",
        ),
        ("?", "bad 0 "),
    ];
    for (text, want) in cases {
        assert_eq!(rt; split_shown(rt.alloc(), text)?.as_str(), want);
    }
    Ok(())
}

#[test]
fn reads_words(rt: HostRuntime) -> Result<(), Fail> {
    let cases = [
        ("X:Int X : Int", "var(1,3)@0-5 var(1,-)@6-7 bad 8 "),
        ("X:Nope", "var(1,-)@0-1 bad 1 "),
        ("_ _:Int _x", "var(_,-)@0-1 var(_,3)@2-7 #3@8-10 "),
        ("ListItem(x)", "item@0-8 '('@8-9 #0@9-10 ')'@10-11 "),
        (
            "ListItem:Int ListItem:Nope",
            "var(1,3)@0-12 item@13-21 bad 21 ",
        ),
        ("Skip Skip:Int skip", "'Skip'@0-4 'Skip'@5-9 bad 9 "),
        ("if iff", "'if'@0-2 #2@3-6 "),
        (
            "true false when requires",
            "true@0-4 false@5-10 #3@11-15 #4@16-24 ",
        ),
        ("\"a\\n\" 007 x1", "\"a\n\"@0-5 7@6-9 #1@10-12 "),
        (
            "X::Int X:::",
            "var(1,-)@0-1 '::'@1-3 var(2,-)@3-6 var(1,-)@7-8 '::'@8-10 bad 10 ",
        ),
        (
            "1 170141183460469231731687303715884105728 9",
            "1@0-1 170141183460469231731687303715884105727@2-41 9@42-43 wide 2 ",
        ),
        ("? 170141183460469231731687303715884105728", "bad 0 "),
    ];
    for (text, want) in cases {
        assert_eq!(rt; split_shown(rt.alloc(), text)?.as_str(), want);
    }
    Ok(())
}

#[test]
fn reads_rules(rt: HostRuntime) -> Result<(), Fail> {
    let cases = [
        (
            "<k> X:Id => I ...</k> <state>... X |-> I:Int ...</state>",
            "open(1)@0-3 var(2,6)@4-8 rewrite@9-11 var(4,-)@12-13 dots@14-17 close(1)@17-21 open(2)@22-29 dots@29-32 var(2,-)@33-34 maps@35-38 var(4,3)@39-44 dots@45-48 close(2)@48-56 ",
        ),
        (
            "I1:Int + I2:Int => I1 +Int I2 when I2 =/=Int 0",
            "var(1,3)@0-6 '+'@7-8 var(3,3)@9-15 rewrite@16-18 var(1,-)@19-21 '+Int'@22-26 var(3,-)@27-29 #4@30-34 var(3,-)@35-37 '=/=Int'@38-44 0@45-46 ",
        ),
        (
            "X |-> (_ => I)",
            "var(1,-)@0-1 maps@2-5 '('@6-7 var(_,-)@7-8 rewrite@9-11 var(3,-)@12-13 ')'@13-14 ",
        ),
        (
            "S1 ~> {} => .",
            "var(1,-)@0-2 then@3-5 '{'@6-7 '}'@7-8 rewrite@9-11 dot(-)@12-13 ",
        ),
        (
            "notBool (X in keys(Rho))",
            "'notBool'@0-7 '('@8-9 var(2,-)@9-10 'in'@11-13 'keys'@14-18 '('@18-19 var(5,-)@19-22 ')'@22-23 ')'@23-24 ",
        ),
    ];
    for (text, want) in cases {
        assert_eq!(rt; split_shown(rt.alloc(), text)?.as_str(), want);
    }
    Ok(())
}

/// The sort of each variable of a rule, or why there is none.
fn sorts_shown(alloc: Global, text: &str) -> Result<String, Fail> {
    let mut names = Names::new(alloc);
    let split = split_of(alloc, &mut names, text)?;
    let mut line = String::new(alloc);
    match variable_sorts(alloc, split.tokens.as_slice()) {
        Ok(sorts) => {
            for (name, sort) in sorts.as_slice() {
                line.push_str(&format!(in alloc; "{}:{sort} ", name.0)?)?;
            }
        }
        Err(VariableFault::Unsorted { name }) => {
            line.push_str(&format!(in alloc; "unsorted {}", name.0)?)?;
        }
        Err(
            VariableFault::SortClash {
                name,
                first,
                second,
            },
        ) => {
            line.push_str(&format!(in alloc; "clash {} {first} {second}", name.0)?)?;
        }
        Err(VariableFault::Memory) => line.push_str("memory")?,
    }
    Ok(line)
}

#[test]
fn finds_sorts(rt: HostRuntime) -> Result<(), Fail> {
    let cases = [
        ("", ""),
        ("_ _:Int x", ""),
        ("X:Int Y:Id X", "0:3 2:6 "),
        ("X Y:Int X:Id => Y", "0:6 1:3 "),
        ("X Y", "unsorted 0"),
        ("X:Int Y Z", "unsorted 2"),
        ("X:Int X:Id", "clash 0 3 6"),
        ("X:Int X:Int X:Id X:Bool", "clash 0 3 6"),
        ("X:Int X:Id Y", "unsorted 3"),
        ("Y:Int X:Id X:Int Y:Bool", "clash 0 3 4"),
    ];
    for (text, want) in cases {
        assert_eq!(rt; sorts_shown(rt.alloc(), text)?.as_str(), want);
    }
    Ok(())
}

/// The names after a text.
fn names_shown(alloc: Global, text: &str) -> Result<String, Fail> {
    let mut names = Names::new(alloc);
    let split = split_of(alloc, &mut names, text)?;
    let mut line = shown(alloc, &split)?;
    for number in 0..5 {
        if let Some(word) = names.word(Symbol(number)) {
            line.push_str(word)?;
            line.push_str(" ")?;
        }
    }
    Ok(line)
}

#[test]
fn numbers_all_words(rt: HostRuntime) -> Result<(), Fail> {
    let line = names_shown(rt.alloc(), "<k> X:Int ? if X")?;
    assert_eq!(rt;
        line.as_str(),
        "open(1)@0-3 var(1,3)@4-9 bad 10 k X Int if "
    );
    Ok(())
}
