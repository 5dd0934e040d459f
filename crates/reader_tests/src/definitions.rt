use definition_syntax::{SyntaxFault, read_definition};
use k_terms::{Memory, Text};
use sorted_grammar::SortFault;
use std::alloc::Global;
use std::str;
use std::test::Fail;

fn str_of(text: &Text) -> &str {
    str::from_utf8(text.as_slice()).unwrap_or("(no text)")
}

fn shown_sort_fault(alloc: Global, fault: &SortFault) -> Result<String, Memory> {
    match fault {
        SortFault::NoSort { name } => Ok(format!(in alloc; "no sort {}", str_of(name))?),
        _ => Ok(format!(in alloc; "sorts: {fault}")?),
    }
}

fn shown_fault(alloc: Global, fault: &SyntaxFault) -> Result<String, Memory> {
    match fault {
        SyntaxFault::Lex(fault) => Ok(format!(in alloc; "{fault}")?),
        SyntaxFault::Module(_) => Ok(String::from_str(alloc, "modules")?),
        SyntaxFault::Sort(fault) => shown_sort_fault(alloc, fault),
        SyntaxFault::Memory => Ok(String::from_str(alloc, "memory")?),
    }
}

/// The number of tokens and of sentences, the label of production 2, and the number of the word `PGM`, for a module of
/// differences with these sentences.
fn shown(alloc: Global, sentences: &str) -> Result<String, Memory> {
    let text = format!(in alloc; "module M syntax E ::= Int | E \"-\" E {sentences} endmodule")?;
    match read_definition(alloc, text.as_bytes()) {
        Ok(definition) => {
            let label = definition
                .grammar
                .label(2)
                .map_or("(none)", |label| str_of(label));
            let word = definition.names.find("PGM").map_or(0, |symbol| symbol.0);
            let tokens = definition.tokens.as_slice().len();
            let all = definition.sentences.as_slice().len();
            Ok(format!(in alloc; "{tokens} {all} {label} {word}")?)
        }
        Err(fault) => shown_fault(alloc, &fault),
    }
}

#[test]
fn reads_definitions(rt: HostRuntime) -> Result<(), Fail> {
    let cases: [(&str, &str); 5] = [
        ("configuration <k> $PGM:E </k>", "25 2 _-_ 7"),
        ("configuration <k>$PGM:E</k> rule 1 => 2", "30 3 _-_ 7"),
        ("", "13 1 _-_ 0"),
        ("syntax E ::= \"x\" F", "no sort F"),
        ("?\u{7}", "no token begins at byte 37"),
    ];
    for (sentences, want) in cases {
        assert_eq!(rt; shown(rt.alloc(), sentences)?.as_str(), want);
    }
    Ok(())
}
