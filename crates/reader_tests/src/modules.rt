use k_lexer::tokens;
use k_terms::{Memory, Text};
use module_reader::{Attrs, Form, Item, ModuleFault, Prod, Sentence, Strict, read_modules};
use std::alloc::Global;
use std::str;
use std::test::Fail;

fn str_of(text: &Text) -> &str {
    match str::from_utf8(text.as_slice()) {
        Ok(text) => text,
        Err(_) => "no text",
    }
}

/// Adds ` 'text'` for a terminal, and ` Sort` for a sort.
fn add_items(line: &mut String, items: &[Item]) -> Result<(), Memory> {
    for item in items {
        match item {
            Item::Terminal(text) => {
                line.push_str(" '")?;
                line.push_str(str_of(text))?;
                line.push_str("'")?;
            }
            Item::Sort(sort) => {
                line.push_str(" ")?;
                line.push_str(str_of(sort))?;
            }
        }
    }
    Ok(())
}

fn add_strict(alloc: Global, line: &mut String, strict: &Strict) -> Result<(), Memory> {
    match strict {
        Strict::No => {}
        Strict::All => line.push_str(" strict")?,
        Strict::Places(places) => {
            line.push_str(" strict at")?;
            for place in places.as_slice() {
                line.push_str(&format!(in alloc; " {place}")?)?;
            }
        }
    }
    Ok(())
}

/// Adds the attributes in a fixed order.
fn add_attrs(alloc: Global, line: &mut String, attrs: &Attrs) -> Result<(), Memory> {
    let flags: [(bool, &str); 5] = [
        (attrs.left, " left"),
        (attrs.right, " right"),
        (attrs.non_assoc, " non-assoc"),
        (attrs.bracket, " bracket"),
        (attrs.seqstrict, " seqstrict"),
    ];
    for (set, name) in flags {
        if set {
            line.push_str(name)?;
        }
    }
    add_strict(alloc, line, &attrs.strict)
}

/// Adds ` |`, the word of a prefix production or the separator of a list production, the items and the attributes.
fn add_prod(alloc: Global, line: &mut String, prod: &Prod) -> Result<(), Memory> {
    line.push_str(" |")?;
    match &prod.form {
        Form::Plain => {}
        Form::Prefix(word) => {
            line.push_str(" ")?;
            line.push_str(str_of(word))?;
            line.push_str(":")?;
        }
        Form::UserList { separator } => {
            line.push_str(" list by '")?;
            line.push_str(str_of(separator))?;
            line.push_str("':")?;
        }
    }
    add_items(line, prod.items.as_slice())?;
    add_attrs(alloc, line, &prod.attrs)
}

/// Adds the sentence with `;` behind. Each group of productions has ` >` before it.
fn add_sentence(alloc: Global, line: &mut String, sentence: &Sentence) -> Result<(), Memory> {
    match sentence {
        Sentence::Syntax { sort, groups } => {
            line.push_str(str_of(sort))?;
            for group in groups.as_slice() {
                line.push_str(" >")?;
                for prod in group.as_slice() {
                    add_prod(alloc, line, prod)?;
                }
            }
        }
        Sentence::Config { first, past } => {
            line.push_str(&format!(in alloc; "configuration {first}-{past}")?)?;
        }
        Sentence::Rule { at, first, past } => {
            line.push_str(&format!(in alloc; "rule@{at} {first}-{past}")?)?;
        }
    }
    line.push_str(";")?;
    Ok(())
}

fn shown_sentences(alloc: Global, sentences: &[Sentence]) -> Result<String, Memory> {
    let mut line = String::new(alloc);
    for sentence in sentences {
        add_sentence(alloc, &mut line, sentence)?;
    }
    Ok(line)
}

fn shown_fault(alloc: Global, fault: &ModuleFault) -> Result<String, Memory> {
    let mut line = format!(in alloc; "{fault}")?;
    match fault {
        ModuleFault::Expected { at } => line.push_str(&format!(in alloc; " {at}")?)?,
        ModuleFault::NoModule { name }
        | ModuleFault::ImportCycle { name }
        | ModuleFault::TwoModules { name } => {
            line.push_str(" ")?;
            line.push_str(str_of(name))?;
        }
        ModuleFault::Memory => {}
    }
    Ok(line)
}

/// The sentences of a definition, or the fault of its text.
fn shown(alloc: Global, text: &str) -> Result<String, Memory> {
    let bytes = text.as_bytes();
    let found = match tokens(alloc, bytes) {
        Ok(found) => found,
        Err(fault) => return Ok(format!(in alloc; "{fault}")?),
    };
    match read_modules(alloc, bytes, &found) {
        Ok(modules) => shown_sentences(alloc, &modules.sentences(alloc)?),
        Err(fault) => shown_fault(alloc, &fault),
    }
}

/// What is shown of a module `M` with these sentences, which begin at byte 9.
fn shown_in_module(alloc: Global, sentences: &str) -> Result<String, Memory> {
    shown(alloc, &format!(in alloc; "module M {sentences} endmodule")?)
}

#[test]
fn reads_modules(rt: HostRuntime) -> Result<(), Fail> {
    let cases: [(&str, &str); 19] = [
        ("", "Expected 0"),
        ("  ", "Expected 2"),
        ("x", "Expected 0"),
        ("module", "Expected 6"),
        ("module A", "Expected 8"),
        ("module A endmodule", ""),
        ("module A // all\nendmodule /* of it */", ""),
        ("module A endmodule x", "Expected 19"),
        ("module A x endmodule", "Expected 9"),
        ("/* x", "the comment at byte 0 has no end"),
        ("module A endmodule \"a", "the string at byte 19 has no end"),
        ("module rule endmodule", ""),
        ("module endmodule endmodule", ""),
        ("module A-B-C syntax S endmodule", "S;"),
        ("module A -B endmodule", "Expected 9"),
        ("module A- B endmodule", "Expected 10"),
        ("module A/**/-B endmodule", "Expected 12"),
        ("module A-1 endmodule", "Expected 9"),
        ("module A- endmodule", "Expected 10"),
    ];
    for (text, want) in cases {
        assert_eq!(rt; shown(rt.alloc(), text)?.as_str(), want);
    }
    Ok(())
}

#[test]
fn joins_modules(rt: HostRuntime) -> Result<(), Fail> {
    let cases: [(&str, &str); 8] = [
        (
            "module A syntax S endmodule module B syntax T endmodule",
            "T;",
        ),
        (
            "module A-B syntax S endmodule module B imports A-B syntax T endmodule",
            "S;T;",
        ),
        (
            "module B syntax T imports A syntax U endmodule module A syntax S endmodule",
            "S;",
        ),
        (
            "module A imports C syntax S endmodule module C syntax T endmodule module B imports A syntax U endmodule",
            "T;S;U;",
        ),
        (
            "module A syntax S endmodule module B syntax T imports A syntax U imports A endmodule",
            "S;T;U;",
        ),
        (
            "module A syntax S endmodule module B imports A syntax T endmodule module C imports A syntax U endmodule module D imports B imports C syntax V endmodule",
            "S;T;U;V;",
        ),
        (
            "module A syntax S endmodule module B imports A syntax T endmodule module C imports A syntax U endmodule module D imports C imports B syntax V endmodule",
            "S;U;T;V;",
        ),
        (
            "module A syntax S endmodule module B imports A syntax T endmodule module C imports A syntax U endmodule module D imports C syntax V endmodule",
            "S;U;V;",
        ),
    ];
    for (text, want) in cases {
        assert_eq!(rt; shown(rt.alloc(), text)?.as_str(), want);
    }
    Ok(())
}

#[test]
fn tells_the_first_fault(rt: HostRuntime) -> Result<(), Fail> {
    let cases: [(&str, &str); 17] = [
        ("module A imports A endmodule", "ImportCycle A"),
        (
            "module A imports B endmodule module B imports A endmodule",
            "ImportCycle A",
        ),
        (
            "module A imports B endmodule module B imports C endmodule module C imports A endmodule",
            "ImportCycle A",
        ),
        (
            "module A imports B endmodule module B imports C endmodule module C imports B endmodule",
            "ImportCycle B",
        ),
        (
            "module A imports A endmodule module B endmodule",
            "ImportCycle A",
        ),
        ("module A imports B endmodule", "NoModule B"),
        ("module A imports endmodule endmodule", "NoModule endmodule"),
        (
            "module A imports B imports C-D endmodule module B endmodule",
            "NoModule C-D",
        ),
        ("module A imports A imports B endmodule", "NoModule B"),
        ("module A imports C imports B endmodule", "NoModule C"),
        ("module A imports B C endmodule", "Expected 19"),
        ("module A endmodule module A endmodule", "TwoModules A"),
        (
            "module A imports C endmodule module B endmodule module B endmodule",
            "TwoModules B",
        ),
        ("module A endmodule module A ( endmodule", "TwoModules A"),
        ("module A ( endmodule module A endmodule", "Expected 9"),
        ("module A endmodule module A-", "Expected 28"),
        (
            "module A endmodule module B ( endmodule module A endmodule",
            "Expected 28",
        ),
    ];
    for (text, want) in cases {
        assert_eq!(rt; shown(rt.alloc(), text)?.as_str(), want);
    }
    Ok(())
}

#[test]
fn reads_productions(rt: HostRuntime) -> Result<(), Fail> {
    let cases: [(&str, &str); 18] = [
        ("syntax B", "B;"),
        ("syntax B ::= \"x\"", "B > | 'x';"),
        ("syntax B : : = C", "B > | C;"),
        (
            "syntax B ::= C D \"-\" | \"c\" > \"d\" > E",
            "B > | C D '-' | 'c' > | 'd' > | E;",
        ),
        (
            "syntax B ::= \"x\" syntax B ::= \"y\"",
            "B > | 'x';B > | 'y';",
        ),
        ("syntax B ::= B \"+\" B [left]", "B > | B '+' B left;"),
        (
            "syntax B ::= B \"+\" B [seqstrict, non-assoc, right]",
            "B > | B '+' B right non-assoc seqstrict;",
        ),
        (
            "syntax B ::= B \"+\" B [left, left, strict(2), strict(1, 2)]",
            "B > | B '+' B left strict at 2 1 2;",
        ),
        (
            "syntax B ::= B \"+\" B [strict(1), strict]",
            "B > | B '+' B strict;",
        ),
        (
            "syntax B ::= \"x\" [strict(4294967295)]",
            "B > | 'x' strict at 4294967295;",
        ),
        (
            "syntax B ::= \"(\" C \")\" [bracket]",
            "B > | '(' C ')' bracket;",
        ),
        (
            "syntax B ::= f(C, Bool)",
            "B > | f: 'f' '(' C ',' Bool ')';",
        ),
        (
            "syntax B ::= F() [left] | \"x\"",
            "B > | F: 'F' '(' ')' left | 'x';",
        ),
        ("syntax B ::= Bag(C)", "B > | Bag: 'Bag' '(' C ')';"),
        ("syntax B ::= List{C, \",\"}", "B > | list by ',': C;"),
        ("syntax B ::= List { C , \"\" }", "B > | list by '': C;"),
        ("syntax B ::= List C", "B > | List C;"),
        ("syntax KResult ::= Int | Bool", "KResult > | Int | Bool;"),
    ];
    for (sentences, want) in cases {
        assert_eq!(rt; shown_in_module(rt.alloc(), sentences)?.as_str(), want);
    }
    Ok(())
}

#[test]
fn tells_where_no_production_goes_on(rt: HostRuntime) -> Result<(), Fail> {
    let cases: [(&str, &str); 27] = [
        ("syntax", "Expected 16"),
        ("syntax b", "Expected 16"),
        ("syntax Bag", "Expected 16"),
        ("syntax B ::=", "Expected 22"),
        ("syntax B := C", "Expected 19"),
        ("syntax B ::= \"=>\"", "Expected 22"),
        ("syntax B ::= \"rule\"", "Expected 22"),
        ("syntax B ::= \"\"", "Expected 22"),
        ("syntax B ::= \"12\"", "Expected 22"),
        ("syntax B ::= \"+++++++++\"", "Expected 22"),
        ("syntax B ::= \"+//\"", "Expected 22"),
        ("syntax B ::= true()", "Expected 22"),
        ("syntax B ::= foo bar", "Expected 26"),
        ("syntax B ::= Bag \"x\"", "Expected 26"),
        ("syntax B ::= \"x\" Bag", "Expected 26"),
        ("syntax B ::= f(C,)", "Expected 26"),
        ("syntax B ::= C | | D", "Expected 26"),
        ("syntax B ::= C [left] D", "Expected 31"),
        ("syntax B ::= C [up]", "Expected 25"),
        ("syntax B ::= C []", "Expected 25"),
        ("syntax B ::= C [strict()]", "Expected 32"),
        ("syntax B ::= C [strict(4294967296)]", "Expected 32"),
        ("syntax B ::= C D [bracket]", "Expected 27"),
        ("syntax B ::= \"(\" K \")\" [bracket]", "Expected 33"),
        ("syntax KResult ::= \"x\"", "Expected 28"),
        ("syntax KResult ::= Int Bool", "Expected 32"),
        ("syntax KResult ::= Int [left]", "Expected 32"),
    ];
    for (sentences, want) in cases {
        assert_eq!(rt; shown_in_module(rt.alloc(), sentences)?.as_str(), want);
    }
    Ok(())
}

#[test]
fn tells_where_no_list_production_goes_on(rt: HostRuntime) -> Result<(), Fail> {
    let cases: [(&str, &str); 14] = [
        ("syntax B ::= List{}", "Expected 27"),
        ("syntax B ::= List{\",\"}", "Expected 27"),
        ("syntax B ::= List{c, \",\"}", "Expected 27"),
        ("syntax B ::= List{Bag, \",\"}", "Expected 27"),
        ("syntax B ::= List{C}", "Expected 28"),
        ("syntax B ::= List{C, }", "Expected 30"),
        ("syntax B ::= List{C, D}", "Expected 30"),
        ("syntax B ::= List{C, \"=>\"}", "Expected 30"),
        ("syntax B ::= List{C, \",\"", "Expected 34"),
        ("syntax B ::= List{C, \",\"} [left]", "Expected 35"),
        ("syntax B ::= List{C, \",\"} | \"x\"", "Expected 35"),
        ("syntax B ::= \"x\" | List{C, \",\"}", "Expected 32"),
        (
            "syntax B ::= List{C, \",\"} syntax B ::= \"x\"",
            "Expected 44",
        ),
        (
            "syntax B ::= \"x\" syntax B ::= List{C, \",\"}",
            "Expected 43",
        ),
    ];
    for (sentences, want) in cases {
        assert_eq!(rt; shown_in_module(rt.alloc(), sentences)?.as_str(), want);
    }
    Ok(())
}

#[test]
fn reads_rules_and_configurations(rt: HostRuntime) -> Result<(), Fail> {
    let cases: [(&str, &str); 10] = [
        (
            "configuration <k> $PGM </k> rule a => b",
            "configuration 3-12;rule@37 13-17;",
        ),
        ("rule a [structural]", "rule@9 3-4;"),
        ("rule [structural]", "rule@9 3-3;"),
        ("rule a [structural] [structural]", "rule@9 3-7;"),
        ("rule a [structural] b", "rule@9 3-8;"),
        ("configuration a [structural]", "configuration 3-7;"),
        ("rule", "Expected 14"),
        ("rule rule a", "Expected 14"),
        ("configuration imports M", "Expected 23"),
        ("rule \"rule\" syntax B", "rule@9 3-4;B;"),
    ];
    for (sentences, want) in cases {
        assert_eq!(rt; shown_in_module(rt.alloc(), sentences)?.as_str(), want);
    }
    assert_eq!(rt;
        shown(rt.alloc(), "module A configuration a")?.as_str(),
        "Expected 24"
    );
    assert_eq!(rt; shown(rt.alloc(), "module A rule")?.as_str(), "Expected 13");
    Ok(())
}
