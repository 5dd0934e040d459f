use super::{Cell, outcomes};
use k_terms::{Memory, sort};
use rule_terms::Kind;
use std::alloc::Global;
use std::test::Fail;

/// The text of the rule begins at byte 87, its word `rule` at byte 82.
const FRONT: &str =
    "module M syntax A ::= f(A) | h(K) syntax B ::= g(B) configuration <k> $PGM:A </k> rule ";

/// Sums in which neither side goes first; the text of the rule begins at byte 71.
const SUMS: &str = "module M syntax A ::= a() | A \"+\" A configuration <k> $PGM:A </k> rule ";

const CELLS: [Cell; 6] = [
    ("T", None, Kind::Cells),
    ("k", Some(0), Kind::Seq),
    ("m", Some(0), Kind::Map),
    ("l", Some(0), Kind::List),
    ("n", Some(0), Kind::One(sort::INT)),
    ("c", Some(0), Kind::Cells),
];

/// Texts of rules and their outcomes. The sorts K, Int, Id, Map and List have the numbers 0, 3, 6, 7 and 8; A and B 10 and 11.
/// The productions of f, h and g have the numbers 1, 2 and 3.
const CASES: [(&str, &str); 41] = [
    // a whole content is rewritten; parts are
    ("f(X:A) => X", "10 0 | 1/0 p1( 0 ) ..1 => 1/0 0 ..1"),
    (
        "<k> f(X:A) ~> (f(Y:A) => Y) ~> g(Z:B) ...</k>",
        "10 10 11 0 | 1/0 p1( 0 ) p1( 1 ) p3( 2 ) ..3 => 1/0 p1( 0 ) 1 p3( 2 ) ..3",
    ),
    // the sort is written at the last occurrence
    (
        "f(X) => f(f(X:A))",
        "10 0 | 1/0 p1( 0 ) ..1 => 1/0 p1( p1( 0 ) ) ..1",
    ),
    // `...` at each side
    (
        "<l> ListItem(X:A) ...</l>",
        "10 8 | 3/0 [ 0 ..1 ] => 3/0 [ 0 ..1 ]",
    ),
    (
        "<l>... ListItem(X:A) </l>",
        "8 10 | 3/0 [ ..0 1 ] => 3/0 [ ..0 1 ]",
    ),
    (
        "<m>... X:Id |-> 1 ...</m>",
        "7 6 | 2/0 { 1: #1 } ..0 => 2/0 { 1: #1 } ..0",
    ),
    (
        "<c>... <n> 1 </n> ...</c>",
        "9 | 5/0 ( 4/1 #1 ..0 ) => 5/0 ( 4/1 #1 ..0 )",
    ),
    // a condition with an operator of each group
    (
        "<n> N:Int </n> when notBool N *Int 2 +Int 1 <Int 9 andBool true orBool false",
        "3 | 4/0 0 => 4/0 0, when or( and( not( lt( add( mul( 0 #2 ) #1 ) #9 ) ) true ) false )",
    ),
    // a sequence as an argument
    ("<k> h(R:K) => R </k>", "0 | 1/0 p2( 0 ) => 1/0 ..0"),
    (
        "<k> h(f(X:A)) => h(.) </k>",
        "10 | 1/0 p2( < p1( 0 ) > ) => 1/0 p2( < > )",
    ),
    // an expression as a whole right side, and as a whole new content
    (
        "<m> M:Map => M[1 <- 2] </m>",
        "7 | 2/0 { } ..0 => 2/0 made set( 0 #1 #2 )",
    ),
    (
        "<m> M:Map </m> (.Bag => <m> M[1 <- 2] </m>)",
        "7 | 2/0 { } ..0 => 2/0 { } ..0 2/1 made set( 0 #1 #2 )",
    ),
    // PatternForm: a variable of sort K elsewhere than as a whole sequence or its last part
    ("<k> R:K ~> f(X:A) </k>", "PatternForm 91"),
    ("h(R:K) => R", "PatternForm 87"),
    // `...` at the left of a sequence
    ("<k>... f(X:A) </k>", "PatternForm 90"),
    // two rests
    ("<m>... R:Map </m>", "PatternForm 90"),
    ("<m> R:Map ...</m>", "PatternForm 91"),
    ("<m> R:Map S:Map </m>", "PatternForm 91"),
    ("<l>... ListItem(1) ...</l>", "PatternForm 90"),
    // `...` in a cell of one value
    ("<n> 1 ...</n>", "PatternForm 91"),
    // an operator on a left side
    ("<n> 1 +Int 2 => 3 </n>", "PatternForm 91"),
    ("<n> (1 +Int 2) => 3 </n>", "PatternForm 92"),
    // a rewrite within a rewrite
    ("<k> (f(X:A) => (X => X)) </k>", "PatternForm 102"),
    ("(<c> <n> 1 => 2 </n> </c> => .Bag)", "PatternForm 96"),
    // a rest between the members of a list
    ("<l> ListItem(1) R:List ListItem(2) </l>", "PatternForm 91"),
    // NotBoundLeft
    ("f(X:A) => g(Y:B)", "NotBoundLeft Y"),
    ("f(X:A) => f(_)", "NotBoundLeft _"),
    (
        "<m> .Map </m> (.Bag => <l> ListItem(1) ...</l>)",
        "NotBoundLeft ...",
    ),
    ("f(X:A) => X when Y:Bool", "NotBoundLeft Y"),
    // the tokens
    ("f(X) => $", "BadToken 95"),
    (
        "<n> 170141183460469231731687303715884105728 => X </n>",
        "WideNumber 91",
    ),
    ("f(X) => )", "Unsorted X"),
    ("f(X:A) => f(X:B)", "SortClash X A B"),
    // no reading: the cells before their contents, contents in the order of the text, the condition
    ("<k> f(X:B) </k> <m> </k>", "NoReading 107"),
    ("<k> f(X:A) </k", "BadToken 98"),
    ("<k> f(X:A)", "NoReading 97"),
    ("<k> f(X:B) </k> <k> f(X) </k>", "NoReading 91"),
    ("<n> </n>", "NoReading 91"),
    ("f(X:A) => X when", "NoReading 103"),
    ("f(X:A) => X when X", "NoReading 104"),
    ("[structural]", "NoReading 87"),
];

fn outcome(alloc: Global, front: &str, rule: &str) -> Result<String, Memory> {
    let text = format!(in alloc; "{front}{rule} endmodule")?;
    outcomes(alloc, text.as_str(), &CELLS)
}

/// What is read otherwise than it should be, and nothing where all is right.
fn otherwise(alloc: Global, front: &str, cases: &[(&str, &str)]) -> Result<String, Memory> {
    let mut line = String::new(alloc);
    for (rule, wanted) in cases {
        let read = outcome(alloc, front, rule)?;
        if read.as_str().trim_end() != *wanted {
            line.push_str(&format!(in alloc; "{rule}: {read} for {wanted}; ")?)?;
        }
    }
    Ok(line)
}

#[test]
fn refuses_rules(rt: HostRuntime) -> Result<(), Fail> {
    assert_eq!(rt; otherwise(rt.alloc(), FRONT, &CASES)?.as_str(), "");
    Ok(())
}

#[test]
fn refuses_two_readings(rt: HostRuntime) -> Result<(), Fail> {
    let sums = [
        ("<k> a() </k> <k> X:A + Y:A + Z:A </k>", "AmbiguousAt 88"),
        ("<k> X:A </k> when X + X + X ==K a()", "AmbiguousAt 89"),
    ];
    assert_eq!(rt; otherwise(rt.alloc(), SUMS, &sums)?.as_str(), "");
    Ok(())
}

/// A rule of three tokens for each of so many cells, and one for each `.Bag` behind them.
fn rule_of_cells(alloc: Global, cells: usize, bags: usize) -> Result<String, Memory> {
    let mut rule = String::new(alloc);
    for _ in 0..cells {
        rule.push_str("<k> . </k> ")?;
    }
    for _ in 0..bags {
        rule.push_str(".Bag ")?;
    }
    Ok(rule)
}

#[test]
fn counts_tokens(rt: HostRuntime) -> Result<(), Fail> {
    let alloc = rt.alloc();
    let rule = rule_of_cells(alloc, 170, 2)?;
    let line = outcome(alloc, FRONT, rule.as_str())?;
    assert_eq!(rt;
        line.as_str().starts_with("| 1/0 1/1 1/2 1/3 "),
        true,
        "{line}"
    );
    let rule = rule_of_cells(alloc, 170, 3)?;
    let line = outcome(alloc, FRONT, rule.as_str())?;
    assert_eq!(rt; line.as_str().trim_end(), "TooMany 513");
    Ok(())
}

/// How many cells a rule may have is asked of what it stands for, and not of its text.
#[test]
fn reads_many_cells(rt: HostRuntime) -> Result<(), Fail> {
    let alloc = rt.alloc();
    for count in [16, 17] {
        let mut rule = String::new(alloc);
        let mut side = String::new(alloc);
        for mark in 0..count {
            rule.push_str("<n> 1 </n> ")?;
            side.push_str(&format!(in alloc; " 4/{mark} #1")?)?;
        }
        let wanted = format!(in alloc; "|{side} =>{side}")?;
        let line = outcome(alloc, FRONT, rule.as_str())?;
        assert_eq!(rt; line.as_str().trim_end(), wanted.as_str());
    }
    Ok(())
}
