ghost use Rattle.std.specs.Prelude.{◌≤◌, IfOk, length};

use grammar_terms::{
    CLOSE_PLACE, DOT_PLACE, EMPTY_PLACE, Grammar, OPEN_PLACE, Part, Production, REWRITE_PLACE,
    Readings, Shape, VARIABLE_PLACE, WILD_PLACE, Word, WordKind,
};
use k_terms::{Many, Memory, Text, Value, sort};
use production_reader::{Attrs, Form, Strict};
use span_table::all_readings;
use std::alloc::Global;
use std::test::Fail;

const EXP: u32 = 10;

const INTS: u32 = 11;

const ROWS: u32 = 12;

fn text(alloc: Global, bytes: &[u8]) -> Result<Text, Memory> {
    Ok(Text::from_vec(Vec::from_slice(alloc, bytes)?))
}

/// A production of a sentence of its own.
fn production(sort: u32, sentence: u32, left: bool, form: Form, items: Many<Part>) -> Production {
    Production {
        sort,
        sentence,
        group: sentence,
        items,
        attrs: Attrs {
            left,
            right: false,
            non_assoc: false,
            bracket: false,
            strict: Strict::No,
            seqstrict: false,
        },
        form,
    }
}

/// The lists of a sort, with a text between.
fn lists(
    alloc: Global,
    sort: u32,
    sentence: u32,
    element: u32,
    separator: &[u8],
) -> Result<Production, Memory> {
    let separator = text(alloc, separator)?;
    let mut items = Many::new(alloc);
    items.push(Part::Sort(element))?;
    Ok(production(sort, sentence, false, Form::UserList { separator }, items))
}

/// `Exp ::= Int`
fn number(alloc: Global) -> Result<Production, Memory> {
    let mut items = Many::new(alloc);
    items.push(Part::Sort(sort::INT))?;
    Ok(production(EXP, 0, false, Form::Plain, items))
}

/// `Exp ::= Exp "-" Exp`
fn difference(alloc: Global, left: bool) -> Result<Production, Memory> {
    let mut items = Many::new(alloc);
    items.push(Part::Sort(EXP))?;
    items.push(Part::Terminal(text(alloc, b"-")?))?;
    items.push(Part::Sort(EXP))?;
    Ok(production(EXP, 1, left, Form::Plain, items))
}

/// `Exp ::= "!" K`
fn banged(alloc: Global) -> Result<Production, Memory> {
    let mut items = Many::new(alloc);
    items.push(Part::Terminal(text(alloc, b"!")?))?;
    items.push(Part::Sort(sort::K))?;
    Ok(production(EXP, 2, false, Form::Plain, items))
}

/// The names of the sorts: the builtin ones, and Exp, Ints and Rows.
fn names(alloc: Global) -> Result<Many<Text>, Memory>
    ensures { IfOk result (λ names. length names ≤ 13) }
{
    Ok(Many::from_vec(vec![in alloc;
        text(alloc, b"K")?,
        text(alloc, b"KItem")?,
        text(alloc, b"KResult")?,
        text(alloc, b"Int")?,
        text(alloc, b"Bool")?,
        text(alloc, b"String")?,
        text(alloc, b"Id")?,
        text(alloc, b"Map")?,
        text(alloc, b"List")?,
        text(alloc, b"Bag")?,
        text(alloc, b"Exp")?,
        text(alloc, b"Ints")?,
        text(alloc, b"Rows")?,
    ]?))
}

/// A number, a difference and an exclamation, productions 1 to 3, `Ints ::= List{Int, ","}`, production 4, and
/// `Rows ::= List{Ints, ";"}`, production 5.
fn expressions(alloc: Global, left: bool) -> Result<Grammar, Memory> {
    let mut prods = Many::new(alloc);
    prods.push(number(alloc)?)?;
    prods.push(difference(alloc, left)?)?;
    prods.push(banged(alloc)?)?;
    prods.push(lists(alloc, INTS, 3, sort::INT, b",")?)?;
    prods.push(lists(alloc, ROWS, 4, INTS, b";")?)?;
    Grammar::new(alloc, names(alloc)?, prods)
}

/// `Ints ::= List{Int, ","}` and lists of sort `Rows` of another element and separator, productions 1 and 2.
fn two_lists(alloc: Global, element: u32, separator: &[u8]) -> Result<Grammar, Memory> {
    let mut prods = Many::new(alloc);
    prods.push(lists(alloc, INTS, 0, sort::INT, b",")?)?;
    prods.push(lists(alloc, ROWS, 1, element, separator)?)?;
    Grammar::new(alloc, names(alloc)?, prods)?.for_rules(alloc)
}

fn word(kind: WordKind, sort: u32) -> Word {
    Word {
        kind,
        sort,
        start: 0,
        end: 0,
    }
}

/// An empty list, or the empty sequence, that is written with so many bytes.
fn empty(sort: u32, bytes: usize) -> Word {
    Word {
        kind: WordKind::EmptyList,
        sort,
        start: 0,
        end: bytes,
    }
}

/// A digit is a number; `k`, `i`, `x` and `y` are variables of K, Int, Ints and Rows, `_` one without a sort, `e` the empty list
/// of Ints, `.` the empty sequence and `:` the same with its sort; some letters are longer terminals, and places ask for `>`, `(`
/// and `)`.
fn word_of(alloc: Global, letter: u8) -> Result<Word, Memory> {
    Ok(match letter {
        b'1' => word(WordKind::Literal(Value::Int(1)), sort::INT),
        b'k' => word(WordKind::Variable, sort::K),
        b'i' => word(WordKind::Variable, sort::INT),
        b'x' => word(WordKind::Variable, INTS),
        b'y' => word(WordKind::Variable, ROWS),
        b'_' => word(WordKind::Wild, 0),
        b'e' => empty(INTS, 5),
        b'.' => empty(sort::K, 1),
        b':' => empty(sort::K, 2),
        b'>' => word(WordKind::Terminal(text(alloc, b"=>")?), REWRITE_PLACE),
        b'(' => word(WordKind::Terminal(text(alloc, b"(")?), OPEN_PLACE),
        b')' => word(WordKind::Terminal(text(alloc, b")")?), CLOSE_PLACE),
        b'~' => word(WordKind::Terminal(text(alloc, b"~>")?), 0),
        b'*' => word(WordKind::Terminal(text(alloc, b"*Int")?), 0),
        b'+' => word(WordKind::Terminal(text(alloc, b"+Int")?), 0),
        b'=' => word(WordKind::Terminal(text(alloc, b"==K")?), 0),
        other => word(WordKind::Terminal(text(alloc, &[other])?), 0),
    })
}

fn words(alloc: Global, letters: &[u8]) -> Result<Vec<Word>, Memory> {
    let mut words = Vec::new(alloc);
    for letter in letters {
        words.push(word_of(alloc, *letter)?)?;
    }
    Ok(words)
}

/// The shapes of parts, with a blank behind each.
#[cycle(showing)]
fn parts_shown(alloc: Global, shapes: &[Shape]) -> Result<String, Fail> {
    let mut line = String::new(alloc);
    for shape in shapes {
        line.push_str(&shape_shown(alloc, shape)?)?;
        line.push_str(" ")?;
    }
    Ok(line)
}

/// A token as its place, and anything else as the number of its production and its parts; a rest stands behind a stroke.
#[cycle(showing)]
fn shape_shown(alloc: Global, shape: &Shape) -> Result<String, Fail> {
    match shape {
        Shape::Leaf(at) => Ok(format!(in alloc; "{at}")?),
        Shape::Node(prod, shapes) => {
            let parts = parts_shown(alloc, shapes.as_slice())?;
            Ok(format!(in alloc; "{prod}( {parts})")?)
        }
        Shape::Items(prod, shapes, None) => {
            let parts = parts_shown(alloc, shapes.as_slice())?;
            Ok(format!(in alloc; "{prod}[ {parts}]")?)
        }
        Shape::Items(prod, shapes, Some(rest)) => {
            let parts = parts_shown(alloc, shapes.as_slice())?;
            Ok(format!(in alloc; "{prod}[ {parts}| {rest} ]")?)
        }
    }
}

/// The one reading of letters, or `none` or `two`.
fn shown(alloc: Global, grammar: &Grammar, sort: u32, letters: &[u8]) -> Result<String, Fail> {
    let words = words(alloc, letters)?;
    match all_readings(alloc, grammar, sort, words.as_slice())? {
        Readings::Zero => Ok(String::from_str(alloc, "none")?),
        Readings::One(shape) => shape_shown(alloc, &shape),
        Readings::Two(_, _) => Ok(String::from_str(alloc, "two")?),
    }
}

/// What letters are as a list of elements of a sort, with a text between.
fn list_shown(
    alloc: Global,
    element: u32,
    separator: &[u8],
    letters: &[u8],
) -> Result<String, Fail> {
    let grammar = two_lists(alloc, element, separator)?;
    shown(alloc, &grammar, ROWS, letters)
}

/// A sort, letters, and the reading that they have there.
type Case = (u32, &'static [u8], &'static str);

/// What is read otherwise than it should be, and nothing where all is right.
fn otherwise(alloc: Global, grammar: &Grammar, cases: &[Case]) -> Result<String, Fail> {
    let mut line = String::new(alloc);
    for (sort, letters, want) in cases {
        let read = shown(alloc, grammar, *sort, letters)?;
        if read.as_str() != *want {
            line.push_str(read.as_str())?;
        }
    }
    Ok(line)
}

/// Over the declared productions alone.
const PROGRAMS: [Case; 7] = [
    (EXP, b"", "none"),
    (EXP, b"1-1-1", "2( 2( 0 2 ) 4 )"),
    (sort::K, b"1", "0"),
    (EXP, b"(1)", "none"),
    (sort::K, b"(1~1)", "none"),
    (INTS, b"1,1", "4[ 0 2 ]"),
    (ROWS, b"1;", "5[ 4[ 0 ] 4[ ] ]"),
];

/// Variables, and those without a sort.
const VARIABLES: [Case; 20] = [
    (sort::K, b"k", "0"),
    (sort::KITEM, b"k", "none"),
    (EXP, b"k", "none"),
    (sort::K, b"(k)", "1"),
    (sort::KITEM, b"(k)", "none"),
    (EXP, b"!k", "3( 1 )"),
    (EXP, b"i", "0"),
    (sort::K, b"i", "0"),
    (INTS, b"x", "0"),
    (INTS, b"i", "4[ 0 ]"),
    (sort::KITEM, b"x", "0"),
    (sort::INT, b"_", "0"),
    (sort::BAG, b"_", "0"),
    (sort::INT, b"(_)", "1"),
    (INTS, b"_", "0"),
    (INTS, b"(_)", "1"),
    (INTS, b"_,_", "4[ 0 2 ]"),
    (ROWS, b"_;_", "5[ 0 2 ]"),
    (ROWS, b"_,_", "5[ 4[ 0 2 ] ]"),
    (EXP, b"_-_", "2( 0 2 )"),
];

/// Empty lists, and lists with a rest.
const LISTS: [Case; 14] = [
    (INTS, b"e", "4[ ]"),
    (sort::INT, b"e", "none"),
    (sort::KITEM, b"e", "4[ ]"),
    (ROWS, b"e;e", "5[ 4[ ] 4[ ] ]"),
    (INTS, b"1,x", "4[ 0 | 2 ]"),
    (INTS, b"1,1,x", "4[ 0 2 | 4 ]"),
    (INTS, b"_,x", "4[ 0 | 2 ]"),
    (INTS, b"1,_", "4[ 0 2 ]"),
    (INTS, b",x", "none"),
    (INTS, b"x,1", "none"),
    (INTS, b"1,(x)", "none"),
    (ROWS, b"1;x", "5[ 4[ 0 ] 2 ]"),
    (ROWS, b"1;y", "5[ 4[ 0 ] | 2 ]"),
    (sort::KITEM, b"1,x", "4[ 0 | 2 ]"),
];

/// Sequences and the empty one.
const SEQUENCES: [Case; 18] = [
    (sort::K, b".", "0[ ]"),
    (sort::KITEM, b".", "none"),
    (sort::K, b"(.)", "0[ ]"),
    (EXP, b"!.", "3( 0[ ] )"),
    (sort::K, b"(1~1)", "0[ 1 3 ]"),
    (sort::KITEM, b"(1~1)", "none"),
    (sort::K, b"((1~1))", "0[ 2 4 ]"),
    (sort::K, b"(1)", "1"),
    (sort::K, b"1~1", "none"),
    (sort::K, b"(1~k)", "0[ 1 3 ]"),
    (sort::K, b"(k~1)", "0[ 1 3 ]"),
    (sort::K, b"(_~1)", "0[ 1 3 ]"),
    (sort::K, b"(1~.)", "none"),
    (sort::K, b"(1~(k))", "none"),
    (sort::K, b"(1~(1~1))", "none"),
    (sort::K, b"(1~1~1)", "0[ 1 3 5 ]"),
    (EXP, b"!(1~1)", "3( 0[ 2 4 ] )"),
    (sort::K, b"(1,1~1)", "0[ 4[ 1 3 ] 5 ]"),
];

/// Operators, which have the numbers from 6 on.
const OPERATORS: [Case; 7] = [
    (sort::INT, b"1*1*1", "6( 6( 0 2 ) 4 )"),
    (sort::INT, b"1+1*1", "9( 0 6( 2 4 ) )"),
    (sort::INT, b"1*1+1", "9( 6( 0 2 ) 4 )"),
    (sort::INT, b"(1+1)*1", "6( 9( 1 3 ) 6 )"),
    (sort::BOOL, b"1=1", "18( 0 2 )"),
    (sort::BOOL, b"1=1=1", "none"),
    (sort::BOOL, b"1=(1=1)", "18( 0 18( 3 5 ) )"),
];

/// Places that ask for one token.
const PLACES: [Case; 21] = [
    (WILD_PLACE, b"_", "0"),
    (WILD_PLACE, b"k", "none"),
    (WILD_PLACE, b"(_)", "none"),
    (DOT_PLACE, b".", "0"),
    (DOT_PLACE, b":", "none"),
    (REWRITE_PLACE, b">", "0"),
    (REWRITE_PLACE, b"(", "none"),
    (OPEN_PLACE, b"(", "0"),
    (OPEN_PLACE, b"+", "none"),
    (CLOSE_PLACE, b")", "0"),
    (CLOSE_PLACE, b">", "none"),
    (EMPTY_PLACE, b":", "0"),
    (EMPTY_PLACE, b".", "none"),
    (EMPTY_PLACE, b"e", "none"),
    (EMPTY_PLACE + 2 * INTS, b"e", "0"),
    (VARIABLE_PLACE, b"k", "0"),
    (VARIABLE_PLACE, b"i", "none"),
    (VARIABLE_PLACE, b"_", "none"),
    (VARIABLE_PLACE + 2 * INTS, b"x", "0"),
    (VARIABLE_PLACE + 2 * INTS, b"1", "none"),
    (ROWS + 1, b"_", "none"),
];

#[test]
fn reads_places(rt: HostRuntime) -> Result<(), Fail> {
    let alloc = rt.alloc();
    let grammar = expressions(alloc, true)?.for_rules(alloc)?;
    assert_eq!(rt; otherwise(alloc, &grammar, &PLACES)?.as_str(), "");
    Ok(())
}

#[test]
fn reads_programs(rt: HostRuntime) -> Result<(), Fail> {
    let alloc = rt.alloc();
    let grammar = expressions(alloc, true)?;
    assert_eq!(rt; otherwise(alloc, &grammar, &PROGRAMS)?.as_str(), "");
    Ok(())
}

#[test]
fn tells_two_readings(rt: HostRuntime) -> Result<(), Fail> {
    let alloc = rt.alloc();
    let grammar = expressions(alloc, false)?;
    assert_eq!(rt; shown(alloc, &grammar, EXP, b"1-1-1")?.as_str(), "two");
    Ok(())
}

#[test]
fn reads_variables(rt: HostRuntime) -> Result<(), Fail> {
    let alloc = rt.alloc();
    let grammar = expressions(alloc, true)?.for_rules(alloc)?;
    assert_eq!(rt; otherwise(alloc, &grammar, &VARIABLES)?.as_str(), "");
    Ok(())
}

#[test]
fn reads_lists(rt: HostRuntime) -> Result<(), Fail> {
    let alloc = rt.alloc();
    let grammar = expressions(alloc, true)?.for_rules(alloc)?;
    assert_eq!(rt; otherwise(alloc, &grammar, &LISTS)?.as_str(), "");
    Ok(())
}

/// Of each sort of elements and separator, what letters are as a list of them.
#[test]
fn reads_lists_of_a_sort(rt: HostRuntime) -> Result<(), Fail> {
    let alloc = rt.alloc();
    let cases: [(u32, &[u8], &[u8], &str); 4] = [
        (sort::KITEM, b"|", b"1|y", "two"),
        (INTS, b"", b"ee", "two"),
        (sort::INT, b"", b"11y", "2[ 0 1 | 2 ]"),
        (sort::INT, b"", b"y", "0"),
    ];
    for (element, separator, letters, want) in cases {
        assert_eq!(rt;
            list_shown(alloc, element, separator, letters)?.as_str(),
            want
        );
    }
    Ok(())
}

#[test]
fn reads_sequences(rt: HostRuntime) -> Result<(), Fail> {
    let alloc = rt.alloc();
    let grammar = expressions(alloc, true)?.for_rules(alloc)?;
    assert_eq!(rt; otherwise(alloc, &grammar, &SEQUENCES)?.as_str(), "");
    Ok(())
}

#[test]
fn reads_operators(rt: HostRuntime) -> Result<(), Fail> {
    let alloc = rt.alloc();
    let grammar = expressions(alloc, true)?.for_rules(alloc)?;
    assert_eq!(rt; otherwise(alloc, &grammar, &OPERATORS)?.as_str(), "");
    Ok(())
}

/// So many numbers with a minus between.
#[test]
fn reads_many_tokens(rt: HostRuntime) -> Result<(), Fail> {
    let alloc = rt.alloc();
    let mut letters = Vec::new(alloc);
    for _ in 0..127 {
        letters.extend_from_slice(b"1-")?;
    }
    letters.push(b'1')?;
    let grammar = expressions(alloc, true)?;
    let words = words(alloc, letters.as_slice())?;
    let readings = all_readings(alloc, &grammar, EXP, words.as_slice())?;
    assert!(rt; matches!(readings, Readings::One(_)));
    Ok(())
}

/// A number within so many parentheses.
fn enclosed(alloc: Global, depth: usize) -> Result<Vec<u8>, Memory> {
    let mut letters = Vec::new(alloc);
    for _ in 0..depth {
        letters.push(b'(')?;
    }
    letters.push(b'1')?;
    for _ in 0..depth {
        letters.push(b')')?;
    }
    Ok(letters)
}

#[test]
fn reads_nested(rt: HostRuntime) -> Result<(), Fail> {
    let alloc = rt.alloc();
    let letters = enclosed(alloc, 63)?;
    let grammar = expressions(alloc, true)?.for_rules(alloc)?;
    assert_eq!(rt;
        shown(alloc, &grammar, sort::K, letters.as_slice())?.as_str(),
        "63"
    );
    Ok(())
}
