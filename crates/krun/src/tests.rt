use crate::alone::krun_alone;
use crate::outcome::{Outcome, Which};
use crate::report::Report;
use crate::samples::{
    IMP, IMP_LINES, LOOPING, MINUS, MINUS_LEFT, NOTS, PAR, PAR_LINES, STATEMENTS, TINY, TWO_SORTS,
};
use cell_config::CellRefusal;
use context_transform::DefFault;
use k_edge::{MemShelf, MemSink, SureShelf, SureSink};
use program_reader::ReadRefusal;
use std::alloc::{AllocError, Global};
use std::test::Fail;

fn file(alloc: Global, name: &str, bytes: &[u8]) -> Result<(String, Vec<u8>), AllocError> {
    Ok((name.to_string(alloc)?, Vec::from_slice(alloc, bytes)?))
}

/// The two files of a job.
fn files(
    alloc: Global,
    definition: &[u8],
    program: &str,
) -> Result<Vec<(String, Vec<u8>)>, AllocError> {
    let mut files = Vec::new(alloc);
    files.push(file(alloc, "d.k", definition)?)?;
    files.push(file(alloc, "p", program.as_bytes())?)?;
    Ok(files)
}

/// The words of a command line.
fn words(alloc: Global, line: &str) -> Result<Vec<String>, AllocError> {
    let mut words = Vec::new(alloc);
    for word in line.split(' ') {
        words.push(word.to_string(alloc)?)?;
    }
    Ok(words)
}

/// The report of a job over files in memory, of which the calls with these numbers fail, and the bytes that it writes.
fn report_of(
    alloc: Global,
    line: &str,
    definition: &[u8],
    program: &str,
    failing: Vec<u64>,
) -> Result<(Report, MemSink), AllocError> {
    let mut shelf = MemShelf::new(files(alloc, definition, program)?, failing);
    let mut sink = MemSink::new(alloc, 16, Vec::new(alloc))?;
    let words = words(alloc, line)?;
    let report = krun_alone(alloc, words.as_slice(), &mut shelf, &mut sink);
    Ok((report, sink))
}

#[test]
fn runs_and_refuses(rt: HostRuntime) -> Result<(), Fail> {
    let no_reading = Outcome::Program(ReadRefusal::NoReading { at: 0 });
    let no_cell_k = Outcome::Definition(DefFault::Cell(CellRefusal::NoK));
    let jobs: [(&str, &str, &str, Outcome, u8, usize); 5] = [
        (
            TINY,
            "plus(s(z()),z())",
            "Final 2\n<k> s(z()) </k>\n",
            Outcome::Final,
            0,
            2,
        ),
        (TINY, "z()", "Final 0\n<k> z() </k>\n", Outcome::Final, 0, 0),
        (
            LOOPING,
            "a()",
            "Budget 100000\n<k> a() </k>\n",
            Outcome::Budget,
            1,
            100_000,
        ),
        (
            TINY,
            "plus(z())",
            "program 13 NoReading at=0\n",
            no_reading,
            4,
            0,
        ),
        (
            "module A endmodule",
            "z()",
            "definition 23 NoK\n",
            no_cell_k,
            3,
            0,
        ),
    ];
    for (definition, program, text, outcome, status, fired) in jobs {
        let (report, sink) = report_of(
            rt.alloc(),
            "krun run d.k p",
            definition.as_bytes(),
            program,
            Vec::new(rt.alloc()),
        )?;
        assert_eq!(rt; sink.bytes(), text.as_bytes(), "{program}");
        assert_eq!(rt; report.outcome, outcome, "{program}");
        assert_eq!(rt; report.status, status, "{program}");
        assert_eq!(rt; report.fired.len(), fired, "{program}");
    }
    Ok(())
}

#[test]
fn refuses_definitions(rt: HostRuntime) -> Result<(), Fail> {
    let refusals: [(&[u8], &str); 9] = [
        (b"\xff", "definition 1 BadByte at=0\n"),
        (b"\"a", "definition 2 OpenString at=0\n"),
        (b"/* x", "definition 3 OpenComment at=0\n"),
        (
            b"module A syntax Int ::= \"x\" endmodule",
            "definition 4 Expected at=16\n",
        ),
        (
            b"module A imports B endmodule",
            "definition 5 NoModule name=B\n",
        ),
        (
            b"module A imports A endmodule",
            "definition 6 ImportCycle name=A\n",
        ),
        (
            b"module A endmodule module A endmodule",
            "definition 7 TwoModules name=A\n",
        ),
        (
            b"module A syntax A ::= Int endmodule",
            "definition 23 NoK\n",
        ),
        (TWO_SORTS.as_bytes(), "definition 29 Unbuilt\n"),
    ];
    for (definition, text) in refusals {
        let (report, sink) = report_of(
            rt.alloc(),
            "krun run d.k p",
            definition,
            "z()",
            Vec::new(rt.alloc()),
        )?;
        assert_eq!(rt; sink.bytes(), text.as_bytes(), "{text}");
        assert_eq!(rt; report.status, 3, "{text}");
        assert!(rt; report.fired.is_empty(), "{text}");
    }
    Ok(())
}

#[test]
fn refuses_definitions_that_are_too_big(rt: HostRuntime) -> Result<(), Fail> {
    let refusals = [
        (1_048_577, "definition 27 TooBig bytes=1048576\n"),
        (1_048_576, "definition 4 Expected at=1048576\n"),
    ];
    for (length, text) in refusals {
        let blanks = Vec::from_elem(rt.alloc(), b' ', length)?;
        let (report, sink) = report_of(
            rt.alloc(),
            "krun run d.k p",
            blanks.as_slice(),
            "z()",
            Vec::new(rt.alloc()),
        )?;
        assert_eq!(rt; sink.bytes(), text.as_bytes(), "{text}");
        assert_eq!(rt; report.status, 3, "{text}");
    }
    Ok(())
}

#[test]
fn counts_the_firings_of_each_worker(rt: HostRuntime) -> Result<(), Fail> {
    let (report, _) = report_of(
        rt.alloc(),
        "krun run d.k p",
        TINY.as_bytes(),
        "plus(s(z()),z())",
        Vec::new(rt.alloc()),
    )?;
    assert_eq!(rt; report.counts.as_slice(), [2_u64, 0, 0, 0, 0].as_slice());
    assert_eq!(rt;
        report.fired.as_slice().first().map(|entry| entry.site.rule),
        Some(2)
    );
    assert_eq!(rt;
        report.fired.as_slice().get(1).map(|entry| entry.site.rule),
        Some(1)
    );
    assert!(rt; report.end.is_some());
    Ok(())
}

#[test]
fn refuses_other_words(rt: HostRuntime) -> Result<(), Fail> {
    for line in [
        "krun",
        "krun run d.k",
        "krun rules d.k p",
        "krun run d.k p more",
    ] {
        let (report, sink) = report_of(
            rt.alloc(),
            line,
            TINY.as_bytes(),
            "z()",
            Vec::new(rt.alloc()),
        )?;
        assert_eq!(rt; report.outcome, Outcome::Usage, "{line}");
        assert_eq!(rt; report.status, 2, "{line}");
        assert!(rt;
            sink.bytes().starts_with(b"usage: krun MODE DEF [PGM]"),
            "{line}"
        );
    }
    Ok(())
}

#[test]
fn faults_of_reading_write_nothing(rt: HostRuntime) -> Result<(), Fail> {
    let faults = [
        (1, Which::Definition),
        (2, Which::Definition),
        (3, Which::Program),
        (4, Which::Program),
    ];
    for (call, which) in faults {
        let failing = vec![in rt.alloc(); call]?;
        let (report, sink) = report_of(
            rt.alloc(),
            "krun run d.k p",
            TINY.as_bytes(),
            "z()",
            failing,
        )?;
        assert_eq!(rt; report.outcome, Outcome::ReadFault(which), "{call}");
        assert_eq!(rt; report.status, 5, "{call}");
        assert!(rt; sink.bytes().is_empty(), "{call}");
    }
    Ok(())
}

#[test]
fn a_failed_write_keeps_the_outcome(rt: HostRuntime) -> Result<(), Fail> {
    let mut shelf = MemShelf::new(
        files(rt.alloc(), TINY.as_bytes(), "z()")?,
        Vec::new(rt.alloc()),
    );
    let mut sink = MemSink::new(rt.alloc(), 16, vec![in rt.alloc(); 2]?)?;
    let words = words(rt.alloc(), "krun run d.k p")?;
    let report = krun_alone(rt.alloc(), words.as_slice(), &mut shelf, &mut sink);
    assert_eq!(rt; report.status, 6);
    assert_eq!(rt; report.outcome, Outcome::Final);
    assert_eq!(rt; sink.bytes(), b"Final 0\n<k> z() ".as_slice());
    Ok(())
}

#[test]
fn runs_over_a_shelf_and_a_sink_that_never_fail(rt: HostRuntime) -> Result<(), Fail> {
    let mut shelf = SureShelf::new(files(rt.alloc(), TINY.as_bytes(), "plus(s(z()),z())")?);
    let mut sink = SureSink::new();
    let words = words(rt.alloc(), "krun run d.k p")?;
    let report = krun_alone(rt.alloc(), words.as_slice(), &mut shelf, &mut sink);
    assert_eq!(rt; report.outcome, Outcome::Final);
    assert_eq!(rt; report.fired.len(), 2);
    Ok(())
}

#[test]
fn shows_terms(rt: HostRuntime) -> Result<(), Fail> {
    let terms: [(&str, &str, &str, u8); 19] = [
        (
            IMP,
            "int x; x = 1 + 2;",
            "int_;_(.Ids[x],_=_;(x,_+_(1,2)))\n",
            0,
        ),
        (
            IMP,
            "int x; x = 170141183460469231731687303715884105728;",
            "program 16 WideNumber at=11\n",
            4,
        ),
        (IMP, "", "program 13 NoReading at=0\n", 4),
        (
            MINUS,
            "1 - 2 - 3",
            "program 14 Ambiguous first=_-_(1,_-_(2,3)) second=_-_(_-_(1,2),3)\n",
            4,
        ),
        (MINUS_LEFT, "1 - 2 - 3", "_-_(_-_(1,2),3)\n", 0),
        (MINUS_LEFT, "", "program 13 NoReading at=0\n", 4),
        (MINUS_LEFT, "1 $", "program 12 BadToken at=2\n", 4),
        (
            MINUS_LEFT,
            "1 - 170141183460469231731687303715884105728",
            "program 16 WideNumber at=4\n",
            4,
        ),
        (NOTS, "! ! z", "!_((!_((z()))))\n", 0),
        (
            STATEMENTS,
            "int x; x = (1 + 2) / 3;",
            "int_;_(.Ids[x],_=_;(x,_/_(_+_(1,2),3)))\n",
            0,
        ),
        (
            "module A syntax B ::= C syntax C ::= B endmodule",
            "z",
            "definition 9 SubsortCycle sort=B\n",
            3,
        ),
        (
            "module A syntax B ::= f(C) endmodule",
            "z",
            "definition 8 NoSort name=C\n",
            3,
        ),
        (
            "module A syntax B ::= B C syntax C ::= List{B,\",\"} endmodule",
            "z",
            "definition 10 CyclicProduction prod=1\n",
            3,
        ),
        (
            "module A syntax L ::= List{M,\"\"} syntax M ::= List{Int,\",\"} endmodule",
            "z",
            "definition 10 CyclicProduction prod=1\n",
            3,
        ),
        (
            "module A syntax A ::= KItem L syntax L ::= List{Int,\",\"} endmodule",
            "z",
            "definition 10 CyclicProduction prod=1\n",
            3,
        ),
        (
            "module A syntax A ::= K L syntax L ::= List{Int,\",\"} endmodule",
            "z",
            "definition 10 CyclicProduction prod=1\n",
            3,
        ),
        (
            "module A syntax N ::= L L syntax L ::= List{Int,\",\"} syntax A ::= N A endmodule",
            "z",
            "definition 10 CyclicProduction prod=3\n",
            3,
        ),
        (
            "module A syntax B ::= \"true\" endmodule",
            "true",
            "definition 4 Expected at=22\n",
            3,
        ),
        (
            "module A syntax E ::= \"e\" endmodule",
            "e",
            "definition 23 NoK\n",
            3,
        ),
    ];
    for (definition, program, text, status) in terms {
        let (report, sink) = report_of(
            rt.alloc(),
            "krun kast d.k p",
            definition.as_bytes(),
            program,
            Vec::new(rt.alloc()),
        )?;
        assert_eq!(rt; sink.bytes(), text.as_bytes(), "{program}");
        assert_eq!(rt; report.status, status, "{program}");
    }
    Ok(())
}

/// A text so many times, and then another one.
fn repeated(alloc: Global, text: &str, count: usize, last: &str) -> Result<String, AllocError> {
    let mut all = String::new(alloc);
    for _ in 0..count {
        all.push_str(text)?;
    }
    all.push_str(last)?;
    Ok(all)
}

#[test]
fn refuses_terms_past_the_limits(rt: HostRuntime) -> Result<(), Fail> {
    let limits: [(&str, &str, usize, &str, &str); 2] = [
        (
            MINUS_LEFT,
            "1 - ",
            128,
            "1",
            "program 15 TooLong tokens=257\n",
        ),
        (NOTS, "! ", 200, "z", "program 28 TooDeep depth=401\n"),
    ];
    for (definition, part, count, last, text) in limits {
        let program = repeated(rt.alloc(), part, count, last)?;
        let (report, sink) = report_of(
            rt.alloc(),
            "krun kast d.k p",
            definition.as_bytes(),
            program.as_str(),
            Vec::new(rt.alloc()),
        )?;
        assert_eq!(rt; sink.bytes(), text.as_bytes(), "{text}");
        assert_eq!(rt; report.status, 4, "{text}");
    }
    Ok(())
}

/// Definitions, the lines of their rules or that of their refusal, and the status.
const LISTED: [(&str, &str, u8); 14] = [
    (TINY, "1 rule k\n2 rule k\n", 0),
    (IMP, IMP_LINES, 0),
    (
        "module A syntax E ::= \"e\" configuration <k> $PGM:E </k> configuration <k> $PGM:E </k> endmodule",
        "definition 22 TwoCells name=k\n",
        3,
    ),
    (
        "module A syntax E ::= \"e\" endmodule",
        "definition 23 NoK\n",
        3,
    ),
    (
        "module A syntax E ::= \"e\" configuration <T> <k> $PGM:E </k> <s> $PGM:E </s> </T> endmodule",
        "definition 24 CellContent name=s\n",
        3,
    ),
    (
        "module S syntax E ::= Int | E \"+\" E [left, strict] syntax KResult ::= Int configuration <k> $PGM:E </k> rule I:Int + J:Int => I +Int J endmodule",
        "1 rule k\n2 heat _+_ 1\n3 cool _+_ 1\n4 heat _+_ 2\n5 cool _+_ 2\n",
        0,
    ),
    (
        "module M syntax A ::= f(A) syntax B ::= g(B) configuration <k> $PGM:A </k> rule f(X) => g(X) endmodule",
        "definition 17 Unsorted rule=75 var=X\n",
        3,
    ),
    (
        "module M syntax A ::= f(A) syntax B ::= g(B) configuration <k> $PGM:A </k> rule f(X:A) => g(Y:B) endmodule",
        "definition 19 NotBoundLeft rule=75 var=Y\n",
        3,
    ),
    (
        "module M syntax A ::= f(A) syntax B ::= g(B) configuration <k> $PGM:A </k> rule f(X:A) => f(X:B) endmodule",
        "definition 18 SortClash rule=75 var=X first=A second=B\n",
        3,
    ),
    (
        "module S syntax E ::= f(E) [strict(2)] configuration <k> $PGM:E </k> endmodule",
        "definition 21 BadStrict prod=1 place=2\n",
        3,
    ),
    (
        "module M syntax A ::= f(A) syntax B ::= g(B) configuration <k> $PGM:A </k> endmodule",
        "",
        0,
    ),
    (
        "module M syntax A ::= f(A) syntax B ::= g(B) configuration <k> $PGM:A </k> rule <k> f(X:A) => . </k> rule f(Y:A) => $ endmodule",
        "definition 12 BadToken rule=101 at=116\n",
        3,
    ),
    (
        "module M syntax A ::= f(A) syntax B ::= g(B) configuration <k> $PGM:A </k> rule f(X:A) => f(X) +Int 1 endmodule",
        "definition 13 NoReading rule=75 at=80\n",
        3,
    ),
    (
        "module M syntax A ::= f(A) syntax B ::= g(B) configuration <k> $PGM:A </k> rule f(X:A) => . requires X endmodule",
        "definition 13 NoReading rule=75 at=101\n",
        3,
    ),
];

/// The definitions of which something else is told than should be, and nothing where all is right.
fn otherwise_listed(alloc: Global, cases: &[(&str, &str, u8)]) -> Result<String, Fail> {
    let mut line = String::new(alloc);
    for (definition, text, status) in cases {
        let (bytes, failing) = (definition.as_bytes(), Vec::new(alloc));
        let (report, sink) = report_of(alloc, "krun rules d.k", bytes, "", failing)?;
        if sink.bytes() != text.as_bytes() || report.status != *status {
            line.push_str(&format!(in alloc; "{definition}; ")?)?;
        }
    }
    Ok(line)
}

#[test]
fn lists_rules(rt: HostRuntime) -> Result<(), Fail> {
    assert_eq!(rt; otherwise_listed(rt.alloc(), &LISTED)?.as_str(), "");
    Ok(())
}

/// An eleventh rule of a definition with ten, its line or that of the refusal, and the status.
const ELEVENTH: [(&str, &str, u8); 4] = [
    (
        "rule <k> get A:Id => . ...</k> <k> get B:Id ...</k>",
        "11 rule T,threads,thread,k,thread,k\n",
        0,
    ),
    (
        "rule <k> get A:Id => . ...</k> <env> E:Map </env>",
        "11 rule T,threads,thread,k,env\n",
        0,
    ),
    (
        "rule <k> get A:Id => . ...</k> <env> E:Map </env> <k> get B:Id ...</k>",
        "definition 25 Unclear rule=11\n",
        3,
    ),
    (
        "rule (.Bag => <env> .Map </env>)",
        "definition 26 CellMisplaced rule=11 cell=env\n",
        3,
    ),
];

/// The eleventh rules of which something else is told than should be, and nothing where all is right.
fn otherwise_added(alloc: Global, cases: &[(&str, &str, u8)]) -> Result<String, Fail> {
    let mut line = String::new(alloc);
    for (rule, text, status) in cases {
        let front = PAR;
        let definition = format!(in alloc; "{front}{rule} endmodule")?;
        let (bytes, failing) = (definition.as_bytes(), Vec::new(alloc));
        let (report, sink) = report_of(alloc, "krun rules d.k", bytes, "", failing)?;
        let told = sink.bytes();
        let before = if *status == 0 { PAR_LINES } else { "" };
        let (first, last) = told.split_at(before.len().min(told.len()));
        if first != before.as_bytes() || last != text.as_bytes() || report.status != *status {
            line.push_str(&format!(in alloc; "{rule}; ")?)?;
        }
    }
    Ok(line)
}

#[test]
fn lists_a_rule_behind_ten(rt: HostRuntime) -> Result<(), Fail> {
    assert_eq!(rt; otherwise_added(rt.alloc(), &ELEVENTH)?.as_str(), "");
    Ok(())
}
