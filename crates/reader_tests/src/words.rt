use grammar_terms::{Grammar, Part, Production, Word, WordKind};
use k_terms::{Many, Names, Symbol, Text, Value, sort};
use production_reader::{Attrs, Form, Strict};
use program_tokens::{Split, split_text};
use std::alloc::Global;
use std::test::Fail;

fn text_of(alloc: Global, text: &str) -> Result<Text, Fail> {
    Ok(Text::from_vec(Vec::from_slice(alloc, text.as_bytes())?))
}

/// A production with these terminals and a sort.
fn production(alloc: Global, terminals: &[&str], form: Form) -> Result<Production, Fail> {
    let mut items = Many::new(alloc);
    for terminal in terminals {
        items.push(Part::Terminal(text_of(alloc, terminal)?))?;
    }
    items.push(Part::Sort(sort::INT))?;
    let attrs = Attrs {
        left: false,
        right: false,
        non_assoc: false,
        bracket: false,
        strict: Strict::No,
        seqstrict: false,
    };
    Ok(Production {
        sort: 10,
        sentence: 0,
        group: 0,
        items,
        attrs,
        form,
    })
}

/// A grammar with the terminals `if`, `<`, `<=`, `<<`, `+`, `++:` and `,`.
fn grammar(alloc: Global) -> Result<Grammar, Fail> {
    let comma = Form::UserList {
        separator: text_of(alloc, ",")?,
    };
    let nothing = Form::UserList {
        separator: Text::new(alloc),
    };
    let mut prods = Many::new(alloc);
    prods.push(production(alloc, &["if", "<=", "<"], Form::Plain)?)?;
    prods.push(production(alloc, &["<<", "+", "<"], Form::Plain)?)?;
    prods.push(production(alloc, &["++:"], comma)?)?;
    prods.push(production(alloc, &[], nothing)?)?;
    Ok(Grammar::new(alloc, Many::new(alloc), prods)?)
}

fn string_of(alloc: Global, text: &Text) -> Result<String, Fail> {
    match std::str::from_utf8(text.as_slice()) {
        Ok(text) => Ok(String::from_str(alloc, text)?),
        Err(_) => Ok(String::from_str(alloc, "(no UTF-8)")?),
    }
}

fn value_shown(alloc: Global, value: &Value) -> Result<String, Fail> {
    match value {
        Value::Int(number) => Ok(format!(in alloc; "{number}")?),
        Value::Bool(truth) => Ok(format!(in alloc; "{truth}")?),
        Value::Str(text) => {
            let text = string_of(alloc, text)?;
            Ok(format!(in alloc; "\"{text}\"")?)
        }
        Value::Id(Symbol(number)) => Ok(format!(in alloc; "#{number}")?),
        _ => Ok(String::from_str(alloc, "(other)")?),
    }
}

fn word_shown(alloc: Global, word: &Word) -> Result<String, Fail> {
    let kind = match &word.kind {
        WordKind::Terminal(text) => string_of(alloc, text)?,
        WordKind::Literal(value) => value_shown(alloc, value)?,
        _ => String::from_str(alloc, "(other)")?,
    };
    Ok(format!(in alloc; "{kind}:{} {}-{} ", word.sort, word.start, word.end)?)
}

/// Each word with its sort and places, and then the bad and the wide place.
fn shown(alloc: Global, split: &Split) -> Result<String, Fail> {
    let mut line = String::new(alloc);
    for word in split.words.as_slice() {
        line.push_str(&word_shown(alloc, word)?)?;
    }
    if let Some(at) = split.bad {
        line.push_str(&format!(in alloc; "bad {at} ")?)?;
    }
    if let Some(at) = split.wide {
        line.push_str(&format!(in alloc; "wide {at} ")?)?;
    }
    Ok(line)
}

fn split_shown(alloc: Global, grammar: &Grammar, text: &[u8]) -> Result<String, Fail> {
    let mut names = Names::new(alloc);
    names.number(alloc, "x")?;
    let split = split_text(alloc, grammar, &mut names, text)?;
    shown(alloc, &split)
}

#[test]
fn splits_into_words(rt: HostRuntime) -> Result<(), Fail> {
    let grammar = grammar(rt.alloc())?;
    let cases: [(&[u8], &str); 12] = [
        (b"", ""),
        (b"if x<=y", "if:0 0-2 #0:6 3-4 <=:0 4-6 #2:6 6-7 "),
        (b"<<< <", "<<:0 0-2 <:0 2-3 <:0 4-5 "),
        (b"< <=,", "<:0 0-1 <=:0 2-4 ,:0 4-5 "),
        (b"+++:++", "+:0 0-1 ++::0 1-4 +:0 4-5 +:0 5-6 "),
        (b"++/**/:", "+:0 0-1 +:0 1-2 bad 6 "),
        (b"true false truth", "true:4 0-4 false:4 5-10 #3:6 11-16 "),
        (b"\"a\\\"\\\\\\t\"", "\"a\"\\\t\":5 0-9 "),
        (b"x ? 1", "#0:6 0-1 bad 2 "),
        (b"<=> ?", "<=:0 0-2 bad 2 "),
        (b"x \"a", "#0:6 0-1 bad 2 "),
        (b"+/*\xff*/x", "+:0 0-1 bad 3 "),
    ];
    for (text, want) in cases {
        assert_eq!(rt; split_shown(rt.alloc(), &grammar, text)?.as_str(), want);
    }
    Ok(())
}

#[test]
fn tells_wide_numbers(rt: HostRuntime) -> Result<(), Fail> {
    let grammar = grammar(rt.alloc())?;
    let cases: [(&[u8], &str); 4] = [
        (b"007", "7:3 0-3 "),
        (
            b"170141183460469231731687303715884105727",
            "170141183460469231731687303715884105727:3 0-39 ",
        ),
        (
            b"1 170141183460469231731687303715884105728 9999999999999999999999999999999999999999",
            "1:3 0-1 170141183460469231731687303715884105727:3 2-41 170141183460469231731687303715884105727:3 42-82 wide 2 ",
        ),
        (b"? 170141183460469231731687303715884105728", "bad 0 "),
    ];
    for (text, want) in cases {
        assert_eq!(rt; split_shown(rt.alloc(), &grammar, text)?.as_str(), want);
    }
    Ok(())
}

/// The first four names after a text.
fn names_shown(alloc: Global, grammar: &Grammar, text: &[u8]) -> Result<String, Fail> {
    let mut names = Names::new(alloc);
    let split = split_text(alloc, grammar, &mut names, text)?;
    let mut line = shown(alloc, &split)?;
    for number in 0..4 {
        if let Some(word) = names.word(Symbol(number)) {
            line.push_str(word)?;
            line.push_str(" ")?;
        }
    }
    Ok(line)
}

#[test]
fn numbers_all_words(rt: HostRuntime) -> Result<(), Fail> {
    let grammar = grammar(rt.alloc())?;
    let line = names_shown(rt.alloc(), &grammar, b"if a ? b a \"c")?;
    assert_eq!(rt; line.as_str(), "if:0 0-2 #1:6 3-4 bad 5 if a b ");
    Ok(())
}
