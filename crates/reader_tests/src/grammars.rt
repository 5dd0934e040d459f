ghost use Rattle.std.specs.Prelude.{◌≤◌, IfOk, length};

use grammar_terms::{Grammar, Part, Production};
use k_terms::{Many, Memory, Op, Text, sort};
use production_reader::{Attrs, Form, Strict};
use std::alloc::Global;
use std::test::Fail;

const EXP: u32 = 10;

fn text(alloc: Global, bytes: &[u8]) -> Result<Text, Memory> {
    Ok(Text::from_vec(Vec::from_slice(alloc, bytes)?))
}

/// A production with two sorts and a minus between, in a group of one sentence.
fn difference(alloc: Global, group: u32, left: bool, bracket: bool) -> Result<Production, Memory> {
    let mut items = Vec::new(alloc);
    items.push(Part::Sort(EXP))?;
    items.push(Part::Terminal(text(alloc, b"-")?))?;
    items.push(Part::Sort(sort::INT))?;
    Ok(Production {
        sort: EXP,
        sentence: 0,
        group,
        items: Many::from_vec(items),
        attrs: Attrs {
            left,
            right: false,
            non_assoc: false,
            bracket,
            strict: Strict::No,
            seqstrict: false,
        },
        form: Form::Plain,
    })
}

/// Production 1 groups to the left, 2 is of a later group, and 3 is a bracket of a still later one.
fn differences(alloc: Global) -> Result<Grammar, Memory> {
    let mut prods = Vec::new(alloc);
    prods.push(difference(alloc, 0, true, false)?)?;
    prods.push(difference(alloc, 1, false, false)?)?;
    prods.push(difference(alloc, 2, false, true)?)?;
    Grammar::new(alloc, Many::new(alloc), Many::from_vec(prods))
}

#[test]
fn keeps_productions_out(rt: HostRuntime) -> Result<(), Fail> {
    let grammar = differences(rt.alloc())?;
    let cases: [(u32, u32, u32, bool); 8] = [
        (1, 0, 1, true),
        (1, 2, 1, false),
        (1, 0, 2, false),
        (1, 1, 2, true),
        (2, 2, 2, true),
        (2, 0, 1, true),
        (1, 2, 3, true),
        (1, 2, 4, true),
    ];
    for (parent, place, child, want) in cases {
        assert!(rt; grammar.permitted(parent, place, child) == want);
    }
    Ok(())
}

/// The names of the builtin sorts, and of Exp.
fn names(alloc: Global) -> Result<Many<Text>, Memory>
    ensures { IfOk result (λ names. length names ≤ 11) }
{
    Ok(Many::from_vec(vec![in alloc;
        text(alloc, b"K")?,
        text(alloc, b"KItem")?,
        text(alloc, b"KResult")?,
        text(alloc, b"Int")?,
        text(alloc, b"Bool")?,
        text(alloc, b"String")?,
        text(alloc, b"Id")?,
        text(alloc, b"Map")?,
        text(alloc, b"List")?,
        text(alloc, b"Bag")?,
        text(alloc, b"Exp")?,
    ]?))
}

/// The grammar for rules of two differences, of sentence 0 and groups 3 and 4.
fn for_rules(alloc: Global) -> Result<Grammar, Memory> {
    let mut prods = Vec::new(alloc);
    prods.push(difference(alloc, 3, true, false)?)?;
    prods.push(difference(alloc, 4, false, false)?)?;
    Grammar::new(alloc, names(alloc)?, Many::from_vec(prods))?.for_rules(alloc)
}

/// A production's number, its operator and its label.
type Builtin = (u32, Option<Op>, &'static [u8]);

const BUILTINS: [Builtin; 12] = [
    (2, None, b"_-_"),
    (3, Some(Op::MulInt), b"_*Int_"),
    (8, Some(Op::JoinString), b"_+String_"),
    (15, Some(Op::EqK), b"_==K_"),
    (17, Some(Op::InKeys), b"_inkeys(_)"),
    (18, Some(Op::Not), b"notBool_"),
    (21, Some(Op::SetKey), b"_[_<-_]"),
    (22, Some(Op::GetKey), b"_[_]"),
    (23, Some(Op::SizeMap), b"size(_)"),
    (26, Some(Op::IntToString), b"Int2String(_)"),
    (27, None, b"(_)"),
    (37, None, b"(_)"),
];

/// How many of some productions have another operator or another label.
fn count_other(grammar: &Grammar, builtins: &[Builtin]) -> usize {
    builtins
        .iter()
        .filter(|(prod, op, label)| !is_builtin(grammar, *prod, *op, label))
        .count()
}

fn is_builtin(grammar: &Grammar, prod: u32, op: Option<Op>, label: &[u8]) -> bool {
    let Some(text) = grammar.label(prod) else {
        return false;
    };
    grammar.operator(prod) == op && text.as_slice() == label
}

#[test]
fn adds_builtin_productions(rt: HostRuntime) -> Result<(), Fail> {
    let grammar = for_rules(rt.alloc())?;
    assert!(rt; grammar.is_for_rules());
    assert_eq!(rt; grammar.prods().len(), 37);
    assert_eq!(rt; count_other(&grammar, &BUILTINS), 0);
    Ok(())
}

/// A parent, a place, a child, and whether it may stand there.
const PLACES: [(u32, u32, u32, bool); 12] = [
    (3, 0, 3, true),
    (3, 2, 3, false),
    (3, 0, 6, false),
    (6, 2, 3, true),
    (15, 0, 9, false),
    (15, 2, 6, true),
    (18, 1, 19, false),
    (19, 0, 18, true),
    (3, 0, 23, true),
    (3, 2, 27, true),
    (21, 0, 20, true),
    (1, 2, 6, true),
];

/// How many places are permitted otherwise than they should be.
fn count_wrong(grammar: &Grammar, places: &[(u32, u32, u32, bool)]) -> usize {
    places
        .iter()
        .filter(|(parent, place, child, want)| grammar.permitted(*parent, *place, *child) != *want)
        .count()
}

#[test]
fn keeps_operators_out(rt: HostRuntime) -> Result<(), Fail> {
    let grammar = for_rules(rt.alloc())?;
    assert_eq!(rt; count_wrong(&grammar, &PLACES), 0);
    Ok(())
}
