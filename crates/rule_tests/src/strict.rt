use grammar_terms::{Grammar, Part, Production};
use k_terms::{Many, Memory, Numbers, Text, sort};
use production_reader::{Attrs, Form, Strict};
use rule_terms::{Body, CellPat, Cond, Draft, Origin, Pattern};
use std::alloc::Global;
use std::test::Fail;
use strictness::{StrictFault, heat_cool};

const AEXP: u32 = 10;

const BEXP: u32 = 11;

const BLOCK: u32 = 12;

const STMT: u32 = 13;

/// The attributes of a production: whether it is a bracket, `strict` with its places, where none stands for all, and
/// whether `seqstrict` stands there.
#[derive(Clone, Copy)]
struct Row<'a> {
    arguments: &'a [u32],
    is_bracket: bool,
    strict: Option<&'a [u64]>,
    is_seqstrict: bool,
}

/// A production that isn't strict.
const fn plain(arguments: &[u32]) -> Row<'_> {
    Row {
        arguments,
        is_bracket: false,
        strict: None,
        is_seqstrict: false,
    }
}

/// `strict`, or `strict(..)` with these places.
const fn strict<'a>(arguments: &'a [u32], places: &'a [u64]) -> Row<'a> {
    Row {
        arguments,
        is_bracket: false,
        strict: Some(places),
        is_seqstrict: false,
    }
}

/// `seqstrict`.
const fn seqstrict(arguments: &[u32]) -> Row<'_> {
    Row {
        arguments,
        is_bracket: false,
        strict: None,
        is_seqstrict: true,
    }
}

fn strict_of(alloc: Global, places: Option<&[u64]>) -> Result<Strict, Memory> {
    match places {
        None => Ok(Strict::No),
        Some([]) => Ok(Strict::All),
        Some(places) => Ok(Strict::Places(Numbers::from_vec(Vec::from_slice(alloc, places)?))),
    }
}

/// A production with a mark before each argument, and at its end.
fn production(alloc: Global, row: &Row<'_>) -> Result<Production, Memory> {
    let mut items = Vec::new(alloc);
    for argument in row.arguments {
        items.push(Part::Terminal(Text::from_vec(Vec::from_slice(alloc, b"!")?)))?;
        items.push(Part::Sort(*argument))?;
    }
    items.push(Part::Terminal(Text::from_vec(Vec::from_slice(alloc, b".")?)))?;
    Ok(Production {
        sort: AEXP,
        sentence: 0,
        group: 0,
        items: Many::from_vec(items),
        attrs: Attrs {
            left: false,
            right: false,
            non_assoc: false,
            bracket: row.is_bracket,
            strict: strict_of(alloc, row.strict)?,
            seqstrict: row.is_seqstrict,
        },
        form: Form::Plain,
    })
}

fn show_part(alloc: Global, line: &mut String, part: &Pattern) -> Result<(), Memory> {
    let parts = match part {
        Pattern::Var(variable) => {
            line.push_str(&format!(in alloc; " {variable}")?)?;
            return Ok(());
        }
        Pattern::Node(prod, parts) => {
            line.push_str(&format!(in alloc; " p{prod}(")?)?;
            parts
        }
        Pattern::Freezer(prod, place, parts) => {
            line.push_str(&format!(in alloc; " p{prod}[{place}](")?)?;
            parts
        }
        _ => return Ok(line.push_str(" ?")?),
    };
    for part in parts.as_slice() {
        match part {
            Pattern::Var(variable) => line.push_str(&format!(in alloc; " {variable}")?)?,
            _ => line.push_str(" ?")?,
        }
    }
    Ok(line.push_str(" )")?)
}

fn show_side(alloc: Global, line: &mut String, side: &[CellPat]) -> Result<(), Memory> {
    for cell in side {
        let (number, mark) = (cell.cell, cell.mark);
        line.push_str(&format!(in alloc; " {number}/{mark}")?)?;
        match &cell.body {
            Body::Seq(parts, Some(rest)) => {
                for part in parts.as_slice() {
                    show_part(alloc, line, part)?;
                }
                line.push_str(&format!(in alloc; " ..{rest}")?)?;
            }
            _ => line.push_str(" ?")?,
        }
    }
    Ok(())
}

fn show_conditions(alloc: Global, line: &mut String, when: &[Cond]) -> Result<(), Memory> {
    for condition in when {
        match condition {
            Cond::IsSort(variable, sort) => {
                line.push_str(&format!(in alloc; " {variable}:{sort}")?)?;
            }
            Cond::NotSort(variable, sort) => {
                line.push_str(&format!(in alloc; " {variable}!{sort}")?)?;
            }
            Cond::Holds(_) => line.push_str(" ?")?,
        }
    }
    Ok(())
}

fn show_origin(alloc: Global, line: &mut String, origin: Origin) -> Result<(), Memory> {
    match origin {
        Origin::Heat { prod, place } => {
            line.push_str(&format!(in alloc; "heat {prod} {place}")?)?;
        }
        Origin::Cool { prod, place } => {
            line.push_str(&format!(in alloc; "cool {prod} {place}")?)?;
        }
        Origin::Written { .. } => line.push_str("?")?,
    }
    Ok(())
}

/// A draft's origin, sorts of variables, sides and conditions.
fn show_draft(alloc: Global, line: &mut String, draft: &Draft) -> Result<(), Memory> {
    show_origin(alloc, line, draft.origin)?;
    line.push_str(",")?;
    for sort in draft.vars.as_slice() {
        line.push_str(&format!(in alloc; " {sort}")?)?;
    }
    line.push_str(",")?;
    show_side(alloc, line, draft.left.as_slice())?;
    line.push_str(" =>")?;
    show_side(alloc, line, draft.right.as_slice())?;
    line.push_str(",")?;
    show_conditions(alloc, line, draft.when.as_slice())?;
    Ok(line.push_str("\n")?)
}

/// The drafts of a grammar over cell 1, one to a line, or the fault.
fn shown(alloc: Global, rows: &[Row<'_>]) -> Result<String, Memory> {
    let mut prods = Vec::new(alloc);
    for row in rows {
        prods.push(production(alloc, row)?)?;
    }
    let grammar = Grammar::new(alloc, Many::new(alloc), Many::from_vec(prods))?;
    let mut text = String::new(alloc);
    match heat_cool(alloc, &grammar, 1) {
        Ok(drafts) => {
            for draft in drafts.as_slice() {
                show_draft(alloc, &mut text, draft)?;
            }
        }
        Err(StrictFault::BadStrict { prod, place }) => {
            text.push_str(&format!(in alloc; "bad {prod} {place}")?)?;
        }
        Err(StrictFault::Memory) => return Err(Memory),
    }
    Ok(text)
}

/// The productions of an imperative language with arithmetic and conditions.
#[test]
fn heats_and_cools(rt: HostRuntime) -> Result<(), Fail> {
    let rows = [
        plain(&[sort::INT]),
        plain(&[sort::ID]),
        plain(&[sort::INT]),
        strict(&[AEXP, AEXP], &[]),
        strict(&[AEXP, AEXP], &[]),
        plain(&[AEXP]),
        plain(&[sort::BOOL]),
        seqstrict(&[AEXP, AEXP]),
        strict(&[BEXP], &[]),
        strict(&[BEXP, BEXP], &[1]),
        plain(&[BEXP]),
        plain(&[]),
        plain(&[STMT]),
        plain(&[BLOCK]),
        strict(&[sort::ID, AEXP], &[2]),
        strict(&[BEXP, BLOCK, BLOCK], &[1]),
        plain(&[BEXP, BLOCK]),
    ];
    let wanted = "heat 4 1, 10 10 0, 1/0 p4( 0 1 ) ..2 => 1/0 0 p4[1]( 1 ) ..2, 0!2
cool 4 1, 10 10 0, 1/0 0 p4[1]( 1 ) ..2 => 1/0 p4( 0 1 ) ..2, 0:2
heat 4 2, 10 10 0, 1/0 p4( 0 1 ) ..2 => 1/0 1 p4[2]( 0 ) ..2, 1!2
cool 4 2, 10 10 0, 1/0 1 p4[2]( 0 ) ..2 => 1/0 p4( 0 1 ) ..2, 1:2
heat 5 1, 10 10 0, 1/0 p5( 0 1 ) ..2 => 1/0 0 p5[1]( 1 ) ..2, 0!2
cool 5 1, 10 10 0, 1/0 0 p5[1]( 1 ) ..2 => 1/0 p5( 0 1 ) ..2, 0:2
heat 5 2, 10 10 0, 1/0 p5( 0 1 ) ..2 => 1/0 1 p5[2]( 0 ) ..2, 1!2
cool 5 2, 10 10 0, 1/0 1 p5[2]( 0 ) ..2 => 1/0 p5( 0 1 ) ..2, 1:2
heat 8 1, 10 10 0, 1/0 p8( 0 1 ) ..2 => 1/0 0 p8[1]( 1 ) ..2, 0!2
cool 8 1, 10 10 0, 1/0 0 p8[1]( 1 ) ..2 => 1/0 p8( 0 1 ) ..2, 0:2
heat 8 2, 10 10 0, 1/0 p8( 0 1 ) ..2 => 1/0 1 p8[2]( 0 ) ..2, 1!2 0:2
cool 8 2, 10 10 0, 1/0 1 p8[2]( 0 ) ..2 => 1/0 p8( 0 1 ) ..2, 1:2
heat 9 1, 11 0, 1/0 p9( 0 ) ..1 => 1/0 0 p9[1]( ) ..1, 0!2
cool 9 1, 11 0, 1/0 0 p9[1]( ) ..1 => 1/0 p9( 0 ) ..1, 0:2
heat 10 1, 11 11 0, 1/0 p10( 0 1 ) ..2 => 1/0 0 p10[1]( 1 ) ..2, 0!2
cool 10 1, 11 11 0, 1/0 0 p10[1]( 1 ) ..2 => 1/0 p10( 0 1 ) ..2, 0:2
heat 15 2, 6 10 0, 1/0 p15( 0 1 ) ..2 => 1/0 1 p15[2]( 0 ) ..2, 1!2
cool 15 2, 6 10 0, 1/0 1 p15[2]( 0 ) ..2 => 1/0 p15( 0 1 ) ..2, 1:2
heat 16 1, 11 12 12 0, 1/0 p16( 0 1 2 ) ..3 => 1/0 0 p16[1]( 1 2 ) ..3, 0!2
cool 16 1, 11 12 12 0, 1/0 0 p16[1]( 1 2 ) ..3 => 1/0 p16( 0 1 2 ) ..3, 0:2
";
    assert_eq!(rt; shown(rt.alloc(), &rows)?.as_str(), wanted);
    Ok(())
}

#[test]
fn names_the_least_bad_place(rt: HostRuntime) -> Result<(), Fail> {
    let bracket = Row {
        arguments: &[AEXP],
        is_bracket: true,
        strict: Some(&[]),
        is_seqstrict: false,
    };
    let both = Row {
        arguments: &[AEXP],
        is_bracket: false,
        strict: Some(&[9]),
        is_seqstrict: true,
    };
    let cases: [(&[Row<'_>], &str); 12] = [
        (&[strict(&[AEXP], &[2])], "bad 1 2"),
        (&[strict(&[AEXP, AEXP], &[9, 3, 1])], "bad 1 3"),
        (&[strict(&[AEXP], &[1, 0])], "bad 1 0"),
        (&[strict(&[], &[])], "bad 1 0"),
        (&[strict(&[], &[1])], "bad 1 0"),
        (&[bracket], "bad 1 0"),
        (&[both], "bad 1 0"),
        (&[strict(&[sort::K], &[])], "bad 1 1"),
        (&[seqstrict(&[AEXP, sort::MAP, sort::LIST])], "bad 1 2"),
        (
            &[strict(&[AEXP, sort::MAP, sort::LIST], &[1, 3])],
            "bad 1 3",
        ),
        (
            &[
                plain(&[]),
                strict(&[AEXP], &[1]),
                strict(&[sort::K], &[1]),
                strict(&[], &[]),
            ],
            "bad 3 1",
        ),
        (
            &[strict(&[AEXP, sort::K, AEXP], &[3, 1, 3])],
            "heat 1 1, 10 0 10 0, 1/0 p1( 0 1 2 ) ..3 => 1/0 0 p1[1]( 1 2 ) ..3, 0!2
cool 1 1, 10 0 10 0, 1/0 0 p1[1]( 1 2 ) ..3 => 1/0 p1( 0 1 2 ) ..3, 0:2
heat 1 3, 10 0 10 0, 1/0 p1( 0 1 2 ) ..3 => 1/0 2 p1[3]( 0 1 ) ..3, 2!2
cool 1 3, 10 0 10 0, 1/0 2 p1[3]( 0 1 ) ..3 => 1/0 p1( 0 1 2 ) ..3, 2:2
",
        ),
    ];
    for (rows, wanted) in cases {
        assert_eq!(rt; shown(rt.alloc(), rows)?.as_str(), wanted);
    }
    Ok(())
}

/// Of three arguments the third is pulled out once the first two are results.
#[test]
fn asks_earlier_arguments(rt: HostRuntime) -> Result<(), Fail> {
    let text = shown(rt.alloc(), &[seqstrict(&[AEXP, BEXP, AEXP])])?;
    let line = text.as_str().lines().nth(4).unwrap_or("");
    assert_eq!(rt;
        line,
        "heat 1 3, 10 11 10 0, 1/0 p1( 0 1 2 ) ..3 => 1/0 2 p1[3]( 0 1 ) ..3, 2!2 0:2 1:2"
    );
    Ok(())
}
