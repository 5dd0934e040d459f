//! What a production reads whose items were read.
ghost use Rattle.std.specs.Prelude.{◌≡◌, IfOk};
ghost use Rattle.span_rows.specs.Steps.{whole_code as code_of_whole, plain_code as code_of_plain};
ghost use Rattle.span_rows.specs.Rows.{Adds, Finishes, IsMade};

use crate::row::{Key, Row};
use crate::rows::add;
use crate::sign::{Sign, enclosed_code, joined_code};
use crate::steps::whole_class;
use grammar_terms::{Grammar, Production};
use k_terms::{Many, Memory};
use production_reader::Form;
use std::alloc::Global;

fn plain_code(
    alloc: Global,
    prod: u32,
    production: &Production,
    code: &[Sign],
) -> Result<Many<Sign>, Memory>
    ensures { IfOk result (λ whole. whole ≡ code_of_plain prod production.now code.now) }
{
    if production.attrs.bracket {
        return joined_code(alloc, code, &[]);
    }
    enclosed_code(alloc, code, Sign::Node(prod))
}

/// The code of the shape of a production, of that of its items.
fn whole_code(
    alloc: Global,
    prod: u32,
    production: &Production,
    code: &[Sign],
) -> Result<Many<Sign>, Memory>
    ensures { IfOk result (λ whole. whole ≡ code_of_whole prod production.now code.now) }
{
    match &production.form {
        Form::Plain => plain_code(alloc, prod, production, code),
        Form::Prefix(_) => plain_code(alloc, prod, production, code),
        Form::UserList { .. } => enclosed_code(alloc, code, Sign::Items(prod)),
    }
}

/// Adds the whole that a front of a production is, where all its items were read.
fn finish(alloc: Global, grammar: &Grammar, front: &Row, rows: &mut Vec<Row>) -> Result<(), Memory>
    ensures { IfOk result (λ _. Adds (Finishes grammar.now front.now) rows.old.items rows.new.items) }
{
    let Key::Front(prod, count, held) = front.key else {
        return Ok(());
    };
    let Some(production) = grammar.production(prod) else {
        return Ok(());
    };
    let Some(class) = whole_class(production, count, held) else {
        return Ok(());
    };
    let code = whole_code(alloc, prod, production, front.code.as_slice())?;
    let key = Key::Whole(prod, class);
    add(rows, Row { key, code })?;
    Ok(())
}

/// Adds the whole that each of some fronts is, where all its items were read.
pub fn finish_all(
    alloc: Global,
    grammar: &Grammar,
    fronts: &[Row],
    rows: &mut Vec<Row>,
) -> Result<(), Memory>
    ensures { IfOk result (λ _. Adds (IsMade (Finishes grammar.now) fronts.now) rows.old.items rows.new.items) }
{
    for front in fronts {
        finish(alloc, grammar, front, rows)?;
    }
    Ok(())
}
