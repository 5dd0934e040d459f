mod samples;

use crate::contents::samples::{
    Asked, IDS, STMT, fault_shown, read_asked, rules, shape_shown, text, words,
};
use grammar_terms::{Grammar, Shape, Word, WordKind};
use k_terms::{Memory, Symbol, Value, sort};
use rule_contents::{
    ContentFault, ContentGrammar, Form, operator_place, read_condition, read_content, words_of,
};
use rule_tokens::{RuleKind, RuleToken};
use std::alloc::Global;
use std::test::Fail;

/// Productions and a kind of cell, with `new` where it is new; words; and what is found. A word of several letters is one token.
type Case = (&'static str, &'static str, &'static str);

fn form_shown(form: Form) -> &'static str {
    match form {
        Form::Sides => "",
        Form::Made => "made ",
        Form::Expression => "whole ",
    }
}

/// The number of the last production of a grammar.
fn last_of(rules: &Grammar) -> u32 {
    u32::try_from(rules.prods().len()).unwrap_or(0)
}

/// As what words were read, and their shape.
fn read_shown(
    alloc: Global,
    last: u32,
    read: Result<(Form, Shape), ContentFault>,
) -> Result<String, Fail> {
    match read {
        Ok((form, shape)) => {
            let shape = shape_shown(alloc, last, &shape)?;
            let form = form_shown(form);
            Ok(format!(in alloc; "{form}{shape}")?)
        }
        Err(fault) => Ok(String::from_str(alloc, fault_shown(fault))?),
    }
}

fn asked_shown(
    alloc: Global,
    asked: &Asked,
    grammar: &ContentGrammar,
    written: &str,
) -> Result<String, Fail> {
    let words = words(alloc, written)?;
    let read = read_content(alloc, grammar, asked.is_new, words.as_slice());
    read_shown(alloc, last_of(&asked.rules), read)
}

fn content_shown(alloc: Global, what: &str, written: &str) -> Result<String, Fail> {
    let asked = read_asked(alloc, what)?;
    let grammar = ContentGrammar::new(alloc, &asked.rules, asked.kind)?;
    asked_shown(alloc, &asked, &grammar, written)
}

/// What is read otherwise than it should be, and nothing where all is right.
fn otherwise(alloc: Global, cases: &[Case]) -> Result<String, Fail> {
    let mut line = String::new(alloc);
    for (what, written, want) in cases {
        let read = content_shown(alloc, what, written)?;
        if read.as_str() != *want {
            line.push_str(&format!(in alloc; "{read} for {want}; ")?)?;
        }
    }
    Ok(line)
}

/// Sequences.
const SEQUENCES: [Case; 27] = [
    ("IMP sequence", "X", "#8( #6( #1( 0 ) ) )"),
    ("IMP sequence", "R", "#8( #6( #2( 0 ) ) )"),
    ("IMP sequence", ".", "#8( #6( #3( 0 ) ) )"),
    ("IMP sequence", ".K", "#8( #6( #4( 0 ) ) )"),
    ("IMP sequence", "_", "#8( #6( #1( 0 ) ) )"),
    ("IMP sequence", ".Map", "none"),
    ("IMP sequence", "E", "none"),
    ("IMP sequence", "( a )", "#8( #6( #1( 1 ) ) )"),
    (
        "IMP sequence",
        "a ~> b ~> R",
        "#8( #7( #7( #6( #1( 0 ) ) #1( 2 ) ) #2( 4 ) ) )",
    ),
    (
        "IMP sequence",
        "( a => b ) ~> a",
        "#8( #7( #6( #5( 0 #6( #1( 1 ) ) 2 #6( #1( 3 ) ) 4 ) ) #1( 6 ) ) )",
    ),
    ("IMP sequence", "( a ~> b )", "none"),
    ("IMP sequence new", "( a ~> b )", "whole 0[ 1 3 ]"),
    (
        "IMP sequence",
        "a => ( a ~> b )",
        "made #10( #6( #1( 0 ) ) 1 0[ 3 5 ] )",
    ),
    ("IMP sequence new", "a => ( a ~> b )", "none"),
    (
        "IMP sequence",
        "X => I",
        "#9( #6( #1( 0 ) ) 1 #6( #1( 2 ) ) )",
    ),
    (
        "IMP sequence",
        "I + I => I +Int I",
        "#9( #6( #1( 4( 0 2 ) ) ) 3 #6( #1( 12( 4 6 ) ) ) )",
    ),
    (
        "IMP sequence",
        "S S => S ~> S",
        "#9( #6( #1( 6( 0 1 ) ) ) 2 #7( #6( #1( 3 ) ) #1( 5 ) ) )",
    ),
    (
        "IMP sequence",
        "X = I ; => .",
        "#9( #6( #1( 5( 0 2 ) ) ) 4 #6( #3( 5 ) ) )",
    ),
    (
        "IMP sequence",
        "int X , Xs ; S => int Xs ; S",
        "#9( #6( #1( 7( 8[ 1 | 3 ] 5 ) ) ) 6 #6( #1( 7( 8 10 ) ) ) )",
    ),
    (
        "IMP sequence",
        "int .Ids ; S => S",
        "#9( #6( #1( 7( 8[ ] 3 ) ) ) 4 #6( #1( 5 ) ) )",
    ),
    (
        "PAR sequence",
        "C ; Cs => C ~> Cs",
        "#9( #6( #1( 9[ 0 | 2 ] ) ) 3 #7( #6( #1( 4 ) ) #1( 6 ) ) )",
    ),
    (
        "PAR sequence",
        ".Cmds => .",
        "#9( #6( #1( 9[ ] ) ) 1 #6( #3( 2 ) ) )",
    ),
    (
        "PAR sequence",
        "spawn { Cs } => .",
        "#9( #6( #1( 8( 2 ) ) ) 4 #6( #3( 5 ) ) )",
    ),
    (
        "PAR sequence",
        "set X I => .",
        "#9( #6( #1( 2( 1 2 ) ) ) 3 #6( #3( 4 ) ) )",
    ),
    ("PAR sequence", "get _", "#8( #6( #1( 1( 1 ) ) ) )"),
    (
        "PAR sequence",
        "kill => .",
        "#9( #6( #1( 7( ) ) ) 1 #6( #3( 2 ) ) )",
    ),
    ("PAR sequence new", "Cs", "#8( #6( #1( 0 ) ) )"),
];

/// Maps.
const MAPS: [Case; 25] = [
    ("IMP map", "X |-> I", "#10( #9[ #1( 0 #7( 2 ) ) ] )"),
    ("IMP map", "E", "#10( #9[ #2( 0 ) ] )"),
    ("IMP map", "_", "#10( #3( 0 ) )"),
    ("IMP map", ".", "#10( #9[ #4( 0 ) ] )"),
    ("IMP map", ".Map", "#10( #9[ #5( 0 ) ] )"),
    ("IMP map", ".K", "none"),
    ("IMP map", "X", "none"),
    ("IMP map", "E _", "none"),
    (
        "IMP map",
        "X |-> ( _ => I )",
        "#10( #9[ #1( 0 #8( 2 3 4 5 6 ) ) ] )",
    ),
    ("IMP map", "( X => Y ) |-> I", "none"),
    (
        "IMP map",
        "E ( .Map => X |-> 0 )",
        "#10( #9[ #2( 0 ) #6( 1 #9[ #5( 2 ) ] 3 #9[ #1( 4 #7( 6 ) ) ] 7 ) ] )",
    ),
    (
        "IMP map",
        ".Map => X |-> 0",
        "#11( #9[ #5( 0 ) ] 1 #9[ #1( 2 #7( 4 ) ) ] )",
    ),
    ("IMP map", "_ => .", "#11( #3( 0 ) 1 #9[ #4( 2 ) ] )"),
    (
        "IMP map",
        "E => E [ X <- I ]",
        "made #12( #9[ #2( 0 ) ] 1 27( 2 4 6 ) )",
    ),
    ("IMP map", "E => E", "#11( #9[ #2( 0 ) ] 1 #9[ #2( 2 ) ] )"),
    ("IMP map new", "E => E [ X <- I ]", "none"),
    ("IMP map new", "E [ X <- I ]", "whole 27( 0 2 4 )"),
    ("IMP map", "E [ X <- I ]", "none"),
    ("IMP map new", "E", "#10( #9[ #2( 0 ) ] )"),
    ("PAR map", "X |-> _", "#10( #9[ #1( 0 #7( 2 ) ) ] )"),
    ("PAR map", "X |-> ( _ => _ )", "two"),
    (
        "PAR map",
        "( .Map => X |-> I )",
        "#10( #9[ #6( 0 #9[ #5( 1 ) ] 2 #9[ #1( 3 #7( 5 ) ) ] 6 ) ] )",
    ),
    (
        "PLAIN map",
        "a |-> S S |-> b",
        "#10( #9[ #1( 0 #7( 2 ) ) #1( 3 #7( 5 ) ) ] )",
    ),
    ("PLAIN map", "a |-> S S S |-> b", "two"),
    (
        "PLAIN map",
        "X |-> ( _ => _ )",
        "#10( #9[ #1( 0 #8( 2 3 4 5 6 ) ) ] )",
    ),
];

/// Lists, and values of a sort.
const OTHERS: [Case; 20] = [
    (
        "IMP list",
        "ListItem ( a ) L ListItem ( b )",
        "#8( #7[ #1( 2 ) #2( 4 ) #1( 7 ) ] )",
    ),
    ("IMP list", "_", "#8( #3( 0 ) )"),
    ("IMP list", ".", "#8( #7[ #4( 0 ) ] )"),
    ("IMP list", ".List", "#8( #7[ #5( 0 ) ] )"),
    ("IMP list", ".Map", "none"),
    ("IMP list", "a", "none"),
    ("IMP list", "ListItem ( _ )", "#8( #7[ #1( 2 ) ] )"),
    (
        "IMP list",
        "( .List => ListItem ( I ) ) L",
        "#8( #7[ #6( 0 #7[ #5( 1 ) ] 2 #7[ #1( 5 ) ] 7 ) #2( 8 ) ] )",
    ),
    ("IMP list", "L => .", "#9( #7[ #2( 0 ) ] 1 #7[ #4( 2 ) ] )"),
    ("IMP list", "L => ( L )", "made #10( #7[ #2( 0 ) ] 1 3 )"),
    ("IMP list new", "( L )", "whole 1"),
    ("IMP Int", "I", "#1( 0 )"),
    ("IMP Int", "_", "#1( 0 )"),
    ("IMP Int", "I => I +Int 1", "#2( 0 1 12( 2 4 ) )"),
    ("IMP Int new", "I +Int 1", "#1( 12( 0 2 ) )"),
    ("IMP Int", "a", "none"),
    ("IMP Int", ".", "none"),
    ("IMP Bool", "true => _", "#2( 0 1 2 )"),
    ("IMP cells", "a", "none"),
    ("IMP cells new", "a", "none"),
];

/// Contents of no words, without a list sort, with one and with two.
const EMPTY: [Case; 13] = [
    ("PLAIN sequence", "", "none"),
    ("IMP sequence", "", "#8( #6( #1( 8[ ] ) ) )"),
    ("LISTS sequence", "", "two"),
    ("PLAIN map", "", "#10( #9[ ] )"),
    ("IMP map", "", "#10( #9[ ] )"),
    ("LISTS map", "", "#10( #9[ ] )"),
    ("PLAIN list", "", "#8( #7[ ] )"),
    ("IMP list", "", "#8( #7[ ] )"),
    ("LISTS list", "", "#8( #7[ ] )"),
    ("PLAIN Int", "", "none"),
    ("IMP Ids", "", "#1( 8[ ] )"),
    ("IMP KItem", "", "#1( 8[ ] )"),
    ("LISTS KItem", "", "two"),
];

#[test]
fn reads_sequences(rt: HostRuntime) -> Result<(), Fail> {
    assert_eq!(rt; otherwise(rt.alloc(), &SEQUENCES)?.as_str(), "");
    Ok(())
}

#[test]
fn reads_maps(rt: HostRuntime) -> Result<(), Fail> {
    assert_eq!(rt; otherwise(rt.alloc(), &MAPS)?.as_str(), "");
    Ok(())
}

#[test]
fn reads_lists_and_values(rt: HostRuntime) -> Result<(), Fail> {
    assert_eq!(rt; otherwise(rt.alloc(), &OTHERS)?.as_str(), "");
    Ok(())
}

#[test]
fn reads_nothing(rt: HostRuntime) -> Result<(), Fail> {
    assert_eq!(rt; otherwise(rt.alloc(), &EMPTY)?.as_str(), "");
    Ok(())
}

fn place_text(alloc: Global, place: Option<usize>) -> Result<String, Fail> {
    match place {
        Some(at) => Ok(format!(in alloc; "{at}")?),
        None => Ok(String::from_str(alloc, "none")?),
    }
}

fn asked_place(
    alloc: Global,
    asked: &Asked,
    grammar: &ContentGrammar,
    words: &[Word],
) -> Result<String, Fail> {
    match read_content(alloc, grammar, asked.is_new, words) {
        Ok((form, shape)) => {
            let place = operator_place(alloc, &asked.rules, asked.kind, form, words, &shape)?;
            place_text(alloc, place)
        }
        Err(fault) => Ok(String::from_str(alloc, fault_shown(fault))?),
    }
}

fn place_shown(alloc: Global, what: &str, written: &str) -> Result<String, Fail> {
    let words = words(alloc, written)?;
    let asked = read_asked(alloc, what)?;
    let grammar = ContentGrammar::new(alloc, &asked.rules, asked.kind)?;
    asked_place(alloc, &asked, &grammar, words.as_slice())
}

/// Where the first operator on a left side begins.
const PLACES: [Case; 27] = [
    ("IMP Int", "I => I", "none"),
    ("IMP Int", "_", "none"),
    ("IMP Int", "I => I +Int 1", "none"),
    ("IMP Int", "I +Int 1 => I", "0"),
    ("IMP Int", "( I ) +Int 1 => I", "0"),
    ("IMP Int", "( ( I +Int 1 ) ) => I", "2"),
    ("IMP Int", "( I +Int 1 ) *Int 1 => I", "0"),
    ("IMP Int", "I +Int 1 +Int 1", "0"),
    ("IMP Int", "size ( E ) => I", "0"),
    ("IMP Int", "( size ( E ) )", "1"),
    ("IMP Bool", "notBool true => true", "0"),
    ("IMP Bool", "true => notBool true", "none"),
    ("IMP Bool", "( notBool true ) andBool true", "0"),
    ("IMP sequence", "X => I +Int 1", "none"),
    ("IMP sequence", "X = I +Int I ; => .", "2"),
    ("IMP sequence", "a ~> ( I +Int 1 ) => a", "3"),
    ("IMP sequence", "E [ X ] => 0", "0"),
    ("IMP sequence", "( a => I +Int 1 ) ~> ( a => b )", "none"),
    ("IMP sequence", "( a => I +Int 1 ) ~> I +Int 1", "8"),
    ("IMP sequence", "a ~> ( I +Int 1 => I +Int 1 )", "3"),
    ("PAR sequence", "set X I +Int 1 => .", "2"),
    ("IMP map", "X |-> ( I => I +Int 1 ) I +Int 1 |-> 0", "9"),
    ("IMP map", "E => E [ X <- I ]", "none"),
    ("IMP map", "( I +Int 1 ) |-> 0 => E [ X <- I ]", "1"),
    ("IMP map new", "E [ X <- I ]", "none"),
    ("PLAIN list", "ListItem ( I *Int 1 ) => .", "2"),
    ("PLAIN list", "( .List => ListItem ( I *Int 1 ) )", "none"),
];

/// What is found elsewhere than it should be, and nothing where all is right.
fn elsewhere(alloc: Global, cases: &[Case]) -> Result<String, Fail> {
    let mut line = String::new(alloc);
    for (what, written, want) in cases {
        let found = place_shown(alloc, what, written)?;
        if found.as_str() != *want {
            line.push_str(&format!(in alloc; "{found} for {want}; ")?)?;
        }
    }
    Ok(line)
}

#[test]
fn finds_operators(rt: HostRuntime) -> Result<(), Fail> {
    assert_eq!(rt; elsewhere(rt.alloc(), &PLACES)?.as_str(), "");
    Ok(())
}

fn condition_shown(alloc: Global, written: &str) -> Result<String, Fail> {
    let rules = rules(alloc, "IMP")?;
    let words = words(alloc, written)?;
    match read_condition(alloc, &rules, words.as_slice()) {
        Ok(shape) => shape_shown(alloc, u32::MAX, &shape),
        Err(fault) => Ok(String::from_str(alloc, fault_shown(fault))?),
    }
}

const CONDITIONS: [(&str, &str); 6] = [
    ("notBool ( X in keys ( E ) )", "24( 23( 2 6 ) )"),
    ("size ( E ) >Int 0", "17( 29( 2 ) 5 )"),
    ("_", "0"),
    ("1", "none"),
    ("", "none"),
    ("true => true", "none"),
];

#[test]
fn reads_conditions(rt: HostRuntime) -> Result<(), Fail> {
    let alloc = rt.alloc();
    let mut line = String::new(alloc);
    for (written, want) in CONDITIONS {
        let read = condition_shown(alloc, written)?;
        if read.as_str() != want {
            line.push_str(read.as_str())?;
        }
    }
    assert_eq!(rt; line.as_str(), "");
    Ok(())
}

/// Tokens of each kind, the variable of symbol 3 being named with and without its sort.
fn kinds(alloc: Global) -> Result<Vec<RuleKind>, Memory> {
    let mut kinds = Vec::new(alloc);
    kinds.push(RuleKind::Open(0))?;
    kinds.push(RuleKind::Close(0))?;
    kinds.push(RuleKind::Rewrite)?;
    kinds.push(RuleKind::Then)?;
    kinds.push(RuleKind::MapsTo)?;
    kinds.push(RuleKind::Dots)?;
    kinds.push(RuleKind::Dot(None))?;
    kinds.push(RuleKind::Dot(Some(sort::K)))?;
    kinds.push(RuleKind::Dot(Some(IDS)))?;
    kinds.push(RuleKind::ListItem)?;
    kinds.push(RuleKind::Terminal(text(alloc, "if")?))?;
    kinds.push(RuleKind::Terminal(text(alloc, "(")?))?;
    kinds.push(RuleKind::Terminal(text(alloc, ")")?))?;
    kinds.push(RuleKind::Literal(Value::Int(1)))?;
    kinds.push(RuleKind::Literal(Value::Bool(true)))?;
    kinds.push(RuleKind::Literal(Value::Str(text(alloc, "s")?)))?;
    kinds.push(RuleKind::Literal(Value::Id(Symbol(7))))?;
    for (name, sort) in [
        (None, None),
        (None, Some(STMT)),
        (Some(Symbol(3)), None),
        (Some(Symbol(3)), Some(STMT)),
        (Some(Symbol(4)), None),
        (Some(Symbol(5)), None),
    ] {
        kinds.push(RuleKind::Variable { name, sort })?;
    }
    Ok(kinds)
}

fn tokens(alloc: Global) -> Result<Vec<RuleToken>, Memory> {
    let mut tokens = Vec::new(alloc);
    for kind in kinds(alloc)? {
        tokens.push(RuleToken {
            kind,
            start: 4,
            end: 6,
        })?;
    }
    Ok(tokens)
}

/// A word as its kind, with the text of a terminal, and its sort.
fn word_shown(alloc: Global, word: &Word) -> Result<String, Fail> {
    let sort = word.sort;
    match &word.kind {
        WordKind::Terminal(text) => {
            let bytes = text.as_slice();
            let length = bytes.len();
            let first = bytes.first().copied().unwrap_or(0);
            Ok(format!(in alloc; "t{length}:{first}:{sort} ")?)
        }
        WordKind::Literal(_) => Ok(format!(in alloc; "l{sort} ")?),
        WordKind::Variable => Ok(format!(in alloc; "v{sort} ")?),
        WordKind::Wild => Ok(String::from_str(alloc, "_ ")?),
        WordKind::EmptyList => Ok(format!(in alloc; "e{sort} ")?),
    }
}

/// A terminal is shown by its length, its first byte and its number.
#[test]
fn makes_words(rt: HostRuntime) -> Result<(), Fail> {
    let alloc = rt.alloc();
    let tokens = tokens(alloc)?;
    let sorts: [(Symbol, u32); 2] = [(Symbol(4), sort::INT), (Symbol(3), STMT)];
    let words = words_of(alloc, tokens.as_slice(), &sorts)?;
    let mut line = String::new(alloc);
    for word in words.as_slice() {
        if word.start != 4 || word.end != 6 {
            line.push_str("elsewhere ")?;
        }
        line.push_str(&word_shown(alloc, word)?)?;
    }
    let want =
        "t0:0:0 t0:0:0 t2:61:2147483650 t2:126:0 t3:124:0 t0:0:0 e0 e0 e13 t8:76:0 t2:105:0 t1:40:2147483651 t1:41:2147483652 l3 l4 l5 l6 _ v11 v11 v11 v3 t0:0:0 ";
    assert_eq!(rt; line.as_str(), want);
    Ok(())
}
