use k_lexer::tokens;
use k_terms::Many;
use production_reader::{Attrs, Form, Item, Prod, Source, Stop, Strict, read_groups};
use std::alloc::Global;
use std::test::Fail;

fn push_text(line: &mut String, bytes: &[u8]) -> Result<(), Fail> {
    for byte in bytes {
        line.push(char::from(*byte))?;
    }
    Ok(())
}

fn show_strict(alloc: Global, line: &mut String, strict: &Strict) -> Result<(), Fail> {
    match strict {
        Strict::No => {}
        Strict::All => line.push_str("s ")?,
        Strict::Places(numbers) => {
            line.push_str("s(")?;
            for number in numbers.as_slice() {
                line.push_str(&format!(in alloc; "{number};")?)?;
            }
            line.push_str(") ")?;
        }
    }
    Ok(())
}

/// Attributes as a letter each, in a fixed order.
fn show_attrs(alloc: Global, line: &mut String, attrs: &Attrs) -> Result<(), Fail> {
    line.push_str("[")?;
    let flags = [
        (attrs.left, "l "),
        (attrs.right, "r "),
        (attrs.non_assoc, "n "),
        (attrs.bracket, "b "),
        (attrs.seqstrict, "q "),
    ];
    for (flag, letter) in flags {
        if flag {
            line.push_str(letter)?;
        }
    }
    show_strict(alloc, line, &attrs.strict)?;
    line.push_str("]")?;
    Ok(())
}

fn show_form(line: &mut String, form: &Form) -> Result<(), Fail> {
    match form {
        Form::Plain => {}
        Form::Prefix(label) => {
            line.push_str("prefix ")?;
            push_text(line, label.as_slice())?;
        }
        Form::UserList { separator } => {
            line.push_str("list ")?;
            push_text(line, separator.as_slice())?;
        }
    }
    Ok(())
}

fn show_production(alloc: Global, line: &mut String, production: &Prod) -> Result<(), Fail> {
    for item in production.items.as_slice() {
        match item {
            Item::Sort(sort) => push_text(line, sort.as_slice())?,
            Item::Terminal(text) => {
                line.push_str("'")?;
                push_text(line, text.as_slice())?;
                line.push_str("'")?;
            }
        }
        line.push_str(" ")?;
    }
    show_attrs(alloc, line, &production.attrs)?;
    show_form(line, &production.form)
}

fn show_groups(alloc: Global, groups: &Many<Many<Prod>>, next: usize) -> Result<String, Fail> {
    let mut line = String::new(alloc);
    for group in groups.as_slice() {
        for production in group.as_slice() {
            show_production(alloc, &mut line, production)?;
            line.push_str(" | ")?;
        }
        line.push_str(" > ")?;
    }
    line.push_str(&format!(in alloc; "{next}")?)?;
    Ok(line)
}

/// What is read of a text that stands behind the sort, or why it is not.
fn shown(alloc: Global, sort: &str, had: Option<bool>, text: &str) -> Result<String, Fail> {
    let found = tokens(alloc, text.as_bytes())?;
    let source = Source::new(text.as_bytes(), &found);
    match read_groups(alloc, &source, 0, sort.as_bytes(), had) {
        Ok((groups, next)) => show_groups(alloc, &groups, next),
        Err(Stop::Expected { at }) => Ok(format!(in alloc; "expected at {at}")?),
        Err(Stop::Memory) => Ok(format!(in alloc; "memory")?),
    }
}

#[test]
fn reads_one_production(rt: HostRuntime) -> Result<(), Fail> {
    let cases = [
        ("", "0"),
        ("rule", "0"),
        ("::= A", "A [] |  > 4"),
        ("::= Foo(", "expected at 5"),
        ("::= \"+\" rule", "'+' [] |  > 4"),
        ("::= A \"+\" A [left]", "A '+' A [l ] |  > 9"),
        ("::= f()", "'f' '(' ')' []prefix f |  > 6"),
        (
            "::= f(A,B) [strict]",
            "'f' '(' A ',' B ')' [s ]prefix f |  > 12",
        ),
        ("::= Bag(A)", "'Bag' '(' A ')' []prefix Bag |  > 7"),
        ("::= List{A,\"\"}", "A []list  |  > 9"),
        ("::= List{A,\";\"} rule", "A []list ; |  > 9"),
        ("::= List{A,\",\"} | B", "A []list , |  > 9"),
        ("::= List(A)", "'List' '(' A ')' []prefix List |  > 7"),
        ("::= List A", "List A [] |  > 5"),
        (
            "::= A | B > \"c\" \"d\"",
            "A [] | B [] |  > 'c' 'd' [] |  > 9",
        ),
    ];
    for (text, want) in cases {
        assert_eq!(rt;
            shown(rt.alloc(), "E", None, text)?.as_str(),
            want,
            "{text}"
        );
    }
    Ok(())
}

#[test]
fn reads_attributes(rt: HostRuntime) -> Result<(), Fail> {
    let cases = [
        ("[left,left,right]", "A [l r ] |  > 11"),
        ("[non - assoc]", "A [n ] |  > 9"),
        ("[bracket]", "A [b ] |  > 7"),
        ("[strict(2,1)]", "A [s(2;1;) ] |  > 12"),
        ("[strict(2,1) , strict]", "A [s ] |  > 14"),
        ("[strict(2),strict(1),seqstrict]", "A [q s(2;1;) ] |  > 17"),
        ("[strict ( 007 )]", "A [s(7;) ] |  > 10"),
        ("[strict(4294967295)]", "A [s(4294967295;) ] |  > 10"),
        ("[strict(4294967296)]", "expected at 7"),
        ("[strict()]", "expected at 7"),
        ("[strict(1,)]", "expected at 9"),
        ("[]", "expected at 5"),
        ("[left,]", "expected at 7"),
        ("[left", "expected at 6"),
        ("[non left]", "expected at 6"),
        ("[non-left]", "expected at 7"),
        ("[other]", "expected at 5"),
    ];
    for (text, want) in cases {
        let line = format!(in rt.alloc(); "::= A {text}")?;
        assert_eq!(rt;
            shown(rt.alloc(), "E", None, &line)?.as_str(),
            want,
            "{text}"
        );
    }
    Ok(())
}

#[test]
fn refuses(rt: HostRuntime) -> Result<(), Fail> {
    let cases = [
        (":", "expected at 1"),
        (":: A", "expected at 2"),
        ("::=", "expected at 3"),
        ("::= foo bar", "expected at 4"),
        ("::= Bag", "expected at 4"),
        ("::= rule (A)", "expected at 3"),
        ("::= \"=>\"", "expected at 3"),
        ("::= A \"...\"", "expected at 4"),
        ("::= \"rule\"", "expected at 3"),
        ("::= \"//\"", "expected at 3"),
        ("::= \"+++++++++\"", "expected at 3"),
        ("::= \"a b\"", "expected at 3"),
        ("::= \"\"", "expected at 3"),
        ("::= \"\\\\\"", "'\\' [] |  > 4"),
        ("::= A |", "expected at 5"),
        ("::= A >", "expected at 5"),
        ("::= A B [bracket]", "expected at 6"),
        ("::= K [bracket]", "expected at 5"),
        ("::= f(A,)", "expected at 7"),
        ("::= f(A", "expected at 6"),
        ("::= List{Bag,\",\"}", "expected at 5"),
        ("::= List{A}", "expected at 6"),
        ("::= List{A,B}", "expected at 7"),
        ("::= List{A,\"rule\"}", "expected at 7"),
        ("::= List{A,\",\"", "expected at 8"),
    ];
    for (text, want) in cases {
        assert_eq!(rt;
            shown(rt.alloc(), "E", None, text)?.as_str(),
            want,
            "{text}"
        );
    }
    Ok(())
}

#[test]
fn minds_what_stands_before(rt: HostRuntime) -> Result<(), Fail> {
    let cases = [
        ("E", Some(true), "::= A", "0"),
        ("E", Some(false), "::= List{A,\",\"}", "List [] |  > 4"),
        ("E", None, "::= A | List{A,\",\"}", "A [] | List [] |  > 6"),
        ("KResult", None, "::= A | B", "A [] | B [] |  > 6"),
        ("KResult", None, "::= A [left]", "A [] |  > 4"),
        ("KResult", None, "::= A B", "A [] |  > 4"),
        ("KResult", None, "::= a()", "expected at 3"),
        ("KResult", None, "::= A > Bag", "expected at 5"),
        ("KResult", None, "::= List{A,\",\"}", "List [] |  > 4"),
    ];
    for (sort, had, text, want) in cases {
        assert_eq!(rt;
            shown(rt.alloc(), sort, had, text)?.as_str(),
            want,
            "{text}"
        );
    }
    Ok(())
}
