use file_reader::{FileModules, FileStop, Sentence, read_file};
use k_lexer::tokens;
use k_terms::Text;
use std::alloc::Global;
use std::test::Fail;

/// Adds a name and a blank.
fn add_name(line: &mut String, name: &Text) -> Result<(), Fail> {
    let text = match std::str::from_utf8(name.as_slice()) {
        Ok(text) => text,
        Err(_) => "?",
    };
    line.push_str(text)?;
    line.push_str(" ")?;
    Ok(())
}

/// A sentence: a sort with the number of its groups, or the places of a text.
fn add_sentence(alloc: Global, line: &mut String, sentence: &Sentence) -> Result<(), Fail> {
    let text = match sentence {
        Sentence::Syntax { groups, .. } => format!(in alloc; "s{} ", groups.len())?,
        Sentence::Config { first, past } => format!(in alloc; "c{first}-{past} ")?,
        Sentence::Rule { at, first, past } => format!(in alloc; "r{at}:{first}-{past} ")?,
    };
    line.push_str(&text)?;
    Ok(())
}

/// The names, the imports after `<`, and the sentences after `=`.
fn shown_file(alloc: Global, file: &FileModules) -> Result<String, Fail> {
    let mut line = String::new(alloc);
    for name in file.names.iter() {
        add_name(&mut line, name)?;
    }
    for imports in file.imports.iter() {
        line.push_str("<")?;
        for name in imports.iter() {
            add_name(&mut line, name)?;
        }
    }
    for sentences in file.sentences.iter() {
        line.push_str("=")?;
        for sentence in sentences.iter() {
            add_sentence(alloc, &mut line, sentence)?;
        }
    }
    Ok(line)
}

/// The file of a text, or where its reading stopped.
fn shown(alloc: Global, text: &str) -> Result<String, Fail> {
    let found = tokens(alloc, text.as_bytes())?;
    match read_file(alloc, text.as_bytes(), found.as_slice()) {
        Ok(file) => shown_file(alloc, &file),
        Err(FileStop::Expected { at }) => Ok(format!(in alloc; "expected {at}")?),
        Err(FileStop::TwoModules { name }) => {
            let mut line = String::from_str(alloc, "two ")?;
            add_name(&mut line, &name)?;
            Ok(line)
        }
        Err(FileStop::Memory) => Ok(String::from_str(alloc, "memory")?),
    }
}

#[test]
fn reads_files(rt: HostRuntime) -> Result<(), Fail> {
    let cases: [(&str, &str); 6] = [
        ("module A endmodule", "A <="),
        (
            "module A-B-C imports D imports E-F endmodule",
            "A-B-C <D E-F =",
        ),
        (
            "module rule endmodule module imports imports imports endmodule",
            "rule imports <<imports ==",
        ),
        (
            "module A syntax B syntax C ::= \"x\" > D | f() endmodule",
            "A <=s0 s2 ",
        ),
        (
            "module A configuration <k> . </k> rule a => b endmodule",
            "A <=c3-11 r34:12-16 ",
        ),
        (
            "module A rule a [structural] rule [structural] rule [structural] [structural] endmodule",
            "A <=r9:3-4 r29:8-8 r47:12-15 ",
        ),
    ];
    for (text, want) in cases {
        assert_eq!(rt; shown(rt.alloc(), text)?.as_str(), want);
    }
    Ok(())
}

#[test]
fn stops_at_the_first_token_that_no_file_goes_on_with(rt: HostRuntime) -> Result<(), Fail> {
    let cases: [(&str, &str); 14] = [
        ("", "expected 0"),
        ("imports A", "expected 0"),
        ("module", "expected 1"),
        ("module A", "expected 2"),
        ("module A foo endmodule", "expected 2"),
        ("module A -B endmodule", "expected 2"),
        ("module A- B endmodule", "expected 3"),
        ("module A-1 endmodule", "expected 3"),
        ("module A syntax Int ::= \"x\" endmodule", "expected 3"),
        ("module A rule endmodule", "expected 3"),
        ("module A rule a", "expected 4"),
        ("module A configuration", "expected 3"),
        (
            "module A syntax L ::= List{A,\",\"} syntax L ::= B endmodule",
            "expected 15",
        ),
        (
            "module A syntax L ::= B syntax L ::= List{A,\",\"} endmodule",
            "expected 14",
        ),
    ];
    for (text, want) in cases {
        assert_eq!(rt; shown(rt.alloc(), text)?.as_str(), want);
    }
    Ok(())
}

#[test]
fn finds_a_name_that_stands_twice(rt: HostRuntime) -> Result<(), Fail> {
    let cases: [(&str, &str); 4] = [
        ("module A endmodule module A endmodule", "two A "),
        ("module A endmodule module A @", "two A "),
        ("module A endmodule module A- B", "expected 6"),
        ("module A endmodule module B endmodule x", "expected 6"),
    ];
    for (text, want) in cases {
        assert_eq!(rt; shown(rt.alloc(), text)?.as_str(), want);
    }
    Ok(())
}
