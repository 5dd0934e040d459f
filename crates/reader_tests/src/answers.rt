use definition_syntax::{Definition, read_definition};
use program_answer::answer_text;
use std::alloc::Global;
use std::test::Fail;

/// Four groups of operators in one sentence, and a bracket.
const GROUPS: (&str, &str) = (
    "E",
    "module E syntax E ::= Int | \"!\" E
    > E \"*\" E [left] > E \"+\" E [left] > E \"=\" E [right] | E \"<\" E [non-assoc] > \"(\" E \")\" [bracket] endmodule",
);

/// Two operators, each in a sentence of its own.
const SENTENCES: (&str, &str) = (
    "E",
    "module E syntax E ::= Int | E \"+\" E [left] syntax E ::= E \"-\" E [left] endmodule",
);

/// Lists with a comma, within brackets, and lists with nothing between.
const LISTS: (&str, &str) = (
    "Es",
    "module L syntax E ::= Int | \"[\" Es \"]\" | \"w\" Ws
  syntax Es ::= List{E,\",\"} syntax Ws ::= List{Id,\"\"} endmodule",
);

/// Any term, and lists.
const ITEMS: (&str, &str) = (
    "A",
    "module A syntax A ::= \"!\" KItem syntax L ::= List{Int,\",\"} endmodule",
);

/// Terminals of marks, of which one is a front of another.
const MARKS: (&str, &str) = (
    "E",
    "module M syntax E ::= Int | E \"<\" E | E \"<=\" E | E \"<<\" E | \"=\" E endmodule",
);

/// Literals, words and brackets of two sorts.
const WORDS: (&str, &str) = (
    "B",
    "module W syntax B ::= Bool | String | Id | C | \"not\" B | f(B, C) | \"(\" B \")\" [bracket]
  syntax C ::= Int | \"(\" C \")\" [bracket] endmodule",
);

/// The line for a program of a sort under a definition, and nothing where these are none.
fn line_of(alloc: Global, language: (&str, &str), program: &str) -> Result<Vec<u8>, Fail> {
    let (sort, definition) = language;
    let Ok(definition) = read_definition(alloc, definition.as_bytes()) else {
        return Ok(Vec::new(alloc));
    };
    let Definition { grammar, names, .. } = definition;
    let Some(sort) = grammar.sort_number(sort) else {
        return Ok(Vec::new(alloc));
    };
    let Ok(told) = answer_text(alloc, &grammar, names, sort, program.as_bytes()) else {
        return Ok(Vec::new(alloc));
    };
    Ok(told.text)
}

#[test]
fn groups_operators(rt: HostRuntime) -> Result<(), Fail> {
    let cases: [((&str, &str), &str, &str); 14] = [
        (GROUPS, "1 + 2 * 3", "_+_(1,_*_(2,3))\n"),
        (GROUPS, "1 * 2 + 3", "_+_(_*_(1,2),3)\n"),
        (GROUPS, "1 + 2 + 3", "_+_(_+_(1,2),3)\n"),
        (GROUPS, "1 = 2 = 3", "_=_(1,_=_(2,3))\n"),
        (GROUPS, "1 < 2 < 3", "program 13 NoReading at=0\n"),
        (GROUPS, "1 < 2 = 3", "program 13 NoReading at=0\n"),
        (GROUPS, "1 = 2 < 3", "_=_(1,_<_(2,3))\n"),
        (GROUPS, "1 = 2 + 3", "_=_(1,_+_(2,3))\n"),
        (GROUPS, "! 1 + 2", "_+_(!_(1),2)\n"),
        (GROUPS, "! (1 + 2)", "!_(_+_(1,2))\n"),
        (GROUPS, "1 + (2 + 3)", "_+_(1,_+_(2,3))\n"),
        (GROUPS, "(1 < 2) < 3", "_<_(_<_(1,2),3)\n"),
        (SENTENCES, "1 + 2 + 3", "_+_(_+_(1,2),3)\n"),
        (
            SENTENCES,
            "1 + 2 - 3",
            "program 14 Ambiguous first=_+_(1,_-_(2,3)) second=_-_(_+_(1,2),3)\n",
        ),
    ];
    for (language, program, line) in cases {
        let found = line_of(rt.alloc(), language, program)?;
        assert_eq!(rt; found.as_slice(), line.as_bytes(), "{program}");
    }
    Ok(())
}

#[test]
fn reads_lists(rt: HostRuntime) -> Result<(), Fail> {
    let cases: [((&str, &str), &str, &str); 10] = [
        (LISTS, "", ".Es[]\n"),
        (LISTS, "1", ".Es[1]\n"),
        (LISTS, "1, 2", ".Es[1,2]\n"),
        (LISTS, "1,", "program 13 NoReading at=0\n"),
        (
            LISTS,
            "[1, []], []",
            ".Es[[_](.Es[1,[_](.Es[])]),[_](.Es[])]\n",
        ),
        (LISTS, "w, w a b", ".Es[w_(.Ws[]),w_(.Ws[a,b])]\n"),
        (ITEMS, "! 1", "!_(1)\n"),
        (ITEMS, "! 1, 2", "!_(.L[1,2])\n"),
        (ITEMS, "!", "!_(.L[])\n"),
        (ITEMS, "! ! 1", "!_(!_(1))\n"),
    ];
    for (language, program, line) in cases {
        let found = line_of(rt.alloc(), language, program)?;
        assert_eq!(rt; found.as_slice(), line.as_bytes(), "{program}");
    }
    Ok(())
}

#[test]
fn splits_words(rt: HostRuntime) -> Result<(), Fail> {
    let cases: [((&str, &str), &str, &str); 15] = [
        (MARKS, "1 <= 2", "_<=_(1,2)\n"),
        (MARKS, "1 < = 2", "_<_(1,=_(2))\n"),
        (MARKS, "1 <<= 2", "_<<_(1,=_(2))\n"),
        (MARKS, "1 <- 2", "program 12 BadToken at=3\n"),
        (MARKS, "1 /* < */ < 2", "_<_(1,2)\n"),
        (MARKS, "1 /* < 2", "program 12 BadToken at=2\n"),
        (WORDS, "true", "true\n"),
        (WORDS, "truer", "truer\n"),
        (WORDS, "not true", "not_(true)\n"),
        (WORDS, "not not", "program 13 NoReading at=0\n"),
        (WORDS, "f(\"a\\n\", ((7)))", "f(\"a\\n\",7)\n"),
        (WORDS, "((7))", "7\n"),
        (WORDS, "f(7, x)", "program 13 NoReading at=0\n"),
        (
            WORDS,
            "170141183460469231731687303715884105727",
            "170141183460469231731687303715884105727\n",
        ),
        (
            WORDS,
            "170141183460469231731687303715884105728",
            "program 16 WideNumber at=0\n",
        ),
    ];
    for (language, program, line) in cases {
        let found = line_of(rt.alloc(), language, program)?;
        assert_eq!(rt; found.as_slice(), line.as_bytes(), "{program}");
    }
    Ok(())
}
