use k_lexer::tokens;
use k_terms::{Memory, Text};
use module_reader::read_modules;
use sorted_grammar::{Grammar, SortFault, read_grammar};
use std::alloc::Global;
use std::str;
use std::test::Fail;

fn str_of(text: Option<&Text>) -> &str {
    match text {
        Some(text) => str::from_utf8(text.as_slice()).unwrap_or("no text"),
        None => "no name",
    }
}

/// The sort, sentence and group of each production.
fn shown_grammar(alloc: Global, grammar: &Grammar) -> Result<String, Memory> {
    let mut line = String::new(alloc);
    for production in grammar.prods() {
        let name = str_of(grammar.sort_name(production.sort));
        let (number, sentence, group) = (production.sort, production.sentence, production.group);
        line.push_str(&format!(in alloc; "{name}{number}:{sentence}:{group} ")?)?;
    }
    Ok(line)
}

fn shown_fault(alloc: Global, fault: &SortFault) -> Result<String, Memory> {
    match fault {
        SortFault::TooMany { what, n } => Ok(format!(in alloc; "{n} {what:?}")?),
        SortFault::NoSort { name } => Ok(format!(in alloc; "no {}", str_of(Some(name)))?),
        SortFault::SubsortCycle { sort } => Ok(format!(in alloc;
            "subsort {}",
            str_of(Some(sort))
        )?),
        SortFault::CyclicProduction { prod } => Ok(format!(in alloc; "production {prod}")?),
        SortFault::Memory => Ok(format!(in alloc; "{fault}")?),
    }
}

/// What is shown of the grammar of a module with these sentences.
fn shown(alloc: Global, sentences: &str) -> Result<String, Memory> {
    let text = format!(in alloc; "module M {sentences} endmodule")?;
    let Ok(found) = tokens(alloc, text.as_bytes()) else {
        return Ok(String::from_str(alloc, "no tokens")?);
    };
    let Ok(modules) = read_modules(alloc, text.as_bytes(), &found) else {
        return Ok(String::from_str(alloc, "no modules")?);
    };
    match read_grammar(alloc, &modules.sentences(alloc)?) {
        Ok(grammar) => shown_grammar(alloc, &grammar),
        Err(fault) => shown_fault(alloc, &fault),
    }
}

/// A sentence for each sort of so many, each with some productions.
fn many(alloc: Global, sorts: usize, productions: &str) -> Result<String, Memory> {
    let mut text = String::new(alloc);
    for number in 0..sorts {
        text.push_str(&format!(in alloc; "syntax S{number} {productions} ")?)?;
    }
    Ok(text)
}

#[test]
fn reads_grammars(rt: HostRuntime) -> Result<(), Fail> {
    let cases: [(&str, &str); 20] = [
        ("rule a", ""),
        (
            "syntax A ::= \"x\" A | B > A \"+\" A [left] rule a syntax B ::= \"b\" > \"c\"",
            "A10:0:0 A10:0:0 A10:0:1 B11:2:2 B11:2:3 ",
        ),
        (
            "syntax C syntax A ::= C Int syntax KResult ::= Int",
            "A11:1:0 KResult2:2:1 ",
        ),
        ("syntax A ::= \"x\" C B", "no C"),
        ("syntax A ::= B syntax B ::= A C", "no C"),
        ("syntax A ::= A", "subsort A"),
        ("syntax A ::= B syntax B ::= A", "subsort A"),
        (
            "syntax C syntax A ::= \"x\" B syntax A ::= C syntax C ::= B syntax B ::= A",
            "subsort C",
        ),
        (
            "syntax A ::= \"x\" B syntax C ::= B syntax B ::= C",
            "subsort B",
        ),
        ("syntax A ::= K", "subsort A"),
        ("syntax A ::= A [left]", "production 1"),
        (
            "syntax A ::= B syntax B ::= \"b\" | A C syntax C ::= List{D, \",\"} syntax D ::= \"d\"",
            "production 3",
        ),
        (
            "syntax A ::= B C syntax B ::= \"b\" | A C syntax C ::= \"c\"",
            "A10:0:0 B11:1:1 B11:1:1 C12:2:2 ",
        ),
        (
            "syntax B ::= List{C, \"\"} syntax C ::= List{D, \",\"} syntax D ::= \"d\"",
            "production 1",
        ),
        (
            "syntax B ::= List{C, \",\"} syntax C ::= List{D, \",\"} syntax D ::= \"d\"",
            "B10:0:0 C11:1:1 D12:2:2 ",
        ),
        (
            "syntax B ::= List{C, \",\"} syntax C ::= \"(\" B \")\" | B",
            "production 1",
        ),
        (
            "syntax A ::= KItem C syntax C ::= List{A, \",\"}",
            "production 1",
        ),
        (
            "syntax A ::= KItem \"x\" syntax C ::= List{A, \",\"}",
            "A10:0:0 C11:1:1 ",
        ),
        (
            "syntax A ::= \"x\" K syntax C ::= List{A, \",\"} syntax E ::= K E",
            "production 3",
        ),
        ("syntax A ::= K A", "A10:0:0 "),
    ];
    for (sentences, want) in cases {
        assert_eq!(rt; shown(rt.alloc(), sentences)?.as_str(), want);
    }
    Ok(())
}

#[test]
fn counts(rt: HostRuntime) -> Result<(), Fail> {
    let alloc = rt.alloc();
    assert_eq!(rt; shown(alloc, &many(alloc, 256, "")?)?.as_str(), "");
    assert_eq!(rt;
        shown(alloc, &many(alloc, 258, "::= T")?)?.as_str(),
        "258 Sorts"
    );
    assert_eq!(rt;
        shown(alloc, &many(alloc, 206, "::= T | T | T | T | T")?)?.as_str(),
        "1030 Productions"
    );
    Ok(())
}
