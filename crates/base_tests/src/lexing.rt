use k_lexer::{Kind, LexFault, Token, find_fault, is_mark, is_word, tokens, tokens_before};
use std::alloc::Global;
use std::test::Fail;

/// The tokens as one letter for each kind with its places, or the fault.
fn shown(alloc: Global, text: &[u8]) -> Result<String, Fail> {
    let found = match tokens(alloc, text) {
        Ok(found) => found,
        Err(fault) => return Ok(format!(in alloc; "{fault}")?),
    };
    listed(alloc, &found)
}

/// The tokens as one letter for each kind with its places.
fn listed(alloc: Global, found: &[Token]) -> Result<String, Fail> {
    let mut line = String::new(alloc);
    for token in found {
        line.push_str(letter(token.kind))?;
        let places = format!(in alloc; "{}-{} ", token.start, token.end)?;
        line.push_str(&places)?;
    }
    Ok(line)
}

fn letter(kind: Kind) -> &'static str {
    match kind {
        Kind::Word => "w",
        Kind::Int => "i",
        Kind::Str => "s",
        Kind::Mark => "m",
    }
}

#[test]
fn takes_the_longest(rt: HostRuntime) -> Result<(), Fail> {
    let cases: [(&[u8], &str); 9] = [
        (b"", ""),
        (b" \t\r\n", ""),
        (b"ab_1 23c 4", "w0-4 i5-7 w7-8 i9-10 "),
        (b"_ 007", "w0-1 i2-5 "),
        (b"<k>=>", "m0-1 w1-2 m2-3 m3-4 m4-5 "),
        (b"\"a\\\"\\\\\\n\\t\"x", "s0-11 w11-12 "),
        (b"\"\"\"\"", "s0-2 s2-4 "),
        (b"a/b", "w0-1 m1-2 w2-3 "),
        ("h\u{e9}l\u{3b1}2 \"\u{80}\"".as_bytes(), "w0-7 s8-12 "),
    ];
    for (text, want) in cases {
        assert_eq!(rt; shown(rt.alloc(), text)?.as_str(), want);
    }
    Ok(())
}

#[test]
fn passes_over_comments(rt: HostRuntime) -> Result<(), Fail> {
    let cases: [(&[u8], &str); 8] = [
        (b"a//b", "w0-1 "),
        (b"a//b\nc", "w0-1 w5-6 "),
        (b"a//b\rc", "w0-1 "),
        (b"//", ""),
        (b"/**/a", "w4-5 "),
        (b"/*/* */*", "m7-8 "),
        (b"/*//*/1", "i6-7 "),
        (b"\"//\"/*\"*/", "s0-4 "),
    ];
    for (text, want) in cases {
        assert_eq!(rt; shown(rt.alloc(), text)?.as_str(), want);
    }
    Ok(())
}

#[test]
fn finds_the_first_fault(rt: HostRuntime) -> Result<(), Fail> {
    let cases: [(&[u8], LexFault); 17] = [
        (b"a /*/", LexFault::OpenComment { at: 2 }),
        (b"/* *", LexFault::OpenComment { at: 0 }),
        (b"a\"", LexFault::OpenString { at: 1 }),
        (b"\"a\nb\"", LexFault::OpenString { at: 0 }),
        (b"\"a\\", LexFault::OpenString { at: 0 }),
        (b"\"a\\r\"", LexFault::OpenString { at: 0 }),
        (b"\"\x7f\"", LexFault::OpenString { at: 0 }),
        (b"a\x00", LexFault::BadByte { at: 1 }),
        (b"a\x7f", LexFault::BadByte { at: 1 }),
        ("a\u{a0}b".as_bytes(), LexFault::BadByte { at: 1 }),
        (b"a\xffb", LexFault::BadByte { at: 1 }),
        (b"\"a\xffb\"", LexFault::OpenString { at: 0 }),
        (b"/*\xff*/a", LexFault::BadByte { at: 2 }),
        (b"/*\xff", LexFault::OpenComment { at: 0 }),
        (b"a//\xe2\x82", LexFault::BadByte { at: 3 }),
        (b"/*\xff*/\"", LexFault::BadByte { at: 2 }),
        (b"\"/*\xff*/", LexFault::OpenString { at: 0 }),
    ];
    for (text, want) in cases {
        let fault = tokens(rt.alloc(), text).err();
        assert_eq!(rt; fault, Some(want));
        assert_eq!(rt; find_fault(text), Some(want));
    }
    Ok(())
}

#[test]
fn says_where_a_token_stands(rt: HostRuntime) -> Result<(), Fail> {
    let found = tokens(rt.alloc(), b" 12")?;
    let token = Token {
        kind: Kind::Int,
        start: 1,
        end: 3,
    };
    assert_eq!(rt; found.first().copied(), Some(token));
    assert_eq!(rt; found.len(), 1);
    assert!(rt; find_fault(b" 12").is_none());
    Ok(())
}

#[test]
fn tells_words_and_marks(rt: HostRuntime) -> Result<(), Fail> {
    let words: [(&[u8], bool); 7] = [
        (b"a", true),
        (b"_1b", true),
        (b"", false),
        (b"1a", false),
        (b"a b", false),
        (b"a-", false),
        (b"a\xff", false),
    ];
    for (text, want) in words {
        assert_eq!(rt; is_word(text), want);
    }
    assert!(rt; is_mark(b'-') && is_mark(b'~'));
    assert!(rt; !(is_mark(b'_') || is_mark(b'"') || is_mark(b' ') || is_mark(0x7f)));
    Ok(())
}

#[test]
fn stops_before_a_place(rt: HostRuntime) -> Result<(), Fail> {
    let cases: [(&[u8], usize, &str); 7] = [
        (b"ab 1", 4, "w0-2 i3-4 "),
        (b"ab 1", 9, "w0-2 i3-4 "),
        (b"ab 1", 3, "w0-2 "),
        (b"ab 1", 1, ""),
        (b"a \"b", 2, "w0-1 "),
        (b"a/*\xff*/b", 3, "w0-1 "),
        (b"a/*\xff*/b", 7, "w0-1 w6-7 "),
    ];
    for (text, at, want) in cases {
        let found = tokens_before(rt.alloc(), text, at)?;
        assert_eq!(rt; listed(rt.alloc(), &found)?.as_str(), want);
    }
    Ok(())
}
