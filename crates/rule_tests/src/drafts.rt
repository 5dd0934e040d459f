use k_terms::{Memory, Op, Value};
use rule_drafts::{DraftFault, Unbound, read_draft};
use rule_terms::{Body, CellPat, Cond, Draft, Pattern};
use std::alloc::Global;
use std::test::Fail;

mod cases;
mod samples;

use cases::{REFUSED, RULES, WHOLES};
use samples::{Case, cells, productions, rule_of, tokens_of, words_of};

fn op_name(op: Op) -> &'static str {
    match op {
        Op::DivInt => " div(",
        Op::NeInt => " ne(",
        Op::InKeys => " in(",
        Op::Not => " not(",
        Op::SetKey => " set(",
        _ => " op(",
    }
}

fn show_rest(alloc: Global, line: &mut String, rest: Option<u32>) -> Result<(), Memory> {
    match rest {
        Some(rest) => Ok(line.push_str(&format!(in alloc; " ..{rest}")?)?),
        None => Ok(()),
    }
}

#[cycle(showing)]
fn show(pattern: &Pattern, alloc: Global, line: &mut String) -> Result<(), Memory> {
    match pattern {
        Pattern::Var(variable) => line.push_str(&format!(in alloc; " {variable}")?)?,
        Pattern::Lit(Value::Int(number)) => line.push_str(&format!(in alloc; " #{number}")?)?,
        Pattern::Lit(_) | Pattern::Freezer(_, _, _) => line.push_str(" ?")?,
        Pattern::Node(prod, parts) => {
            line.push_str(&format!(in alloc; " p{prod}(")?)?;
            show_all(parts.as_slice(), alloc, line)?;
            line.push_str(" )")?;
        }
        Pattern::Items(prod, parts, rest) => {
            line.push_str(&format!(in alloc; " p{prod}[")?)?;
            show_all(parts.as_slice(), alloc, line)?;
            show_rest(alloc, line, *rest)?;
            line.push_str(" ]")?;
        }
        Pattern::Seq(parts, rest) => {
            line.push_str(" <")?;
            show_all(parts.as_slice(), alloc, line)?;
            show_rest(alloc, line, *rest)?;
            line.push_str(" >")?;
        }
        Pattern::Apply(op, parts) => {
            line.push_str(op_name(*op))?;
            show_all(parts.as_slice(), alloc, line)?;
            line.push_str(" )")?;
        }
    }
    Ok(())
}

#[cycle(showing)]
fn show_all(patterns: &[Pattern], alloc: Global, line: &mut String) -> Result<(), Memory> {
    for pattern in patterns {
        show(pattern, alloc, line)?;
    }
    Ok(())
}

fn show_entries(
    alloc: Global,
    line: &mut String,
    entries: &[(Pattern, Pattern)],
) -> Result<(), Memory> {
    line.push_str(" {")?;
    for (key, value) in entries {
        show(key, alloc, line)?;
        line.push_str(":")?;
        show(value, alloc, line)?;
    }
    Ok(line.push_str(" }")?)
}

#[cycle(showing_cells)]
fn show_body(body: &Body, alloc: Global, line: &mut String) -> Result<(), Memory> {
    match body {
        Body::Cells(cells, rest) => {
            line.push_str(" (")?;
            show_cells(cells.as_slice(), alloc, line)?;
            show_rest(alloc, line, *rest)?;
            line.push_str(" )")?;
        }
        Body::Seq(parts, rest) => {
            show_all(parts.as_slice(), alloc, line)?;
            show_rest(alloc, line, *rest)?;
        }
        Body::Map(entries, rest) => {
            show_entries(alloc, line, entries.as_slice())?;
            show_rest(alloc, line, *rest)?;
        }
        Body::List(before, rest, after) => {
            show_all(before.as_slice(), alloc, line)?;
            show_rest(alloc, line, *rest)?;
            show_all(after.as_slice(), alloc, line)?;
        }
        Body::One(pattern) => show(pattern, alloc, line)?,
        Body::Made(pattern) => {
            line.push_str(" made")?;
            show(pattern, alloc, line)?;
        }
    }
    Ok(())
}

#[cycle(showing_cells)]
fn show_cells(cells: &[CellPat], alloc: Global, line: &mut String) -> Result<(), Memory> {
    for cell in cells {
        let (number, mark) = (cell.cell, cell.mark);
        line.push_str(&format!(in alloc; " {number}/{mark}")?)?;
        show_body(&cell.body, alloc, line)?;
    }
    Ok(())
}

fn show_conditions(alloc: Global, line: &mut String, when: &[Cond]) -> Result<(), Memory> {
    for condition in when {
        match condition {
            Cond::Holds(pattern) => {
                line.push_str(", when")?;
                show(pattern, alloc, line)?;
            }
            Cond::IsSort(_, _) | Cond::NotSort(_, _) => line.push_str(" ?")?,
        }
    }
    Ok(())
}

/// The sorts of the variables, both sides and the conditions.
fn show_draft(alloc: Global, line: &mut String, draft: &Draft) -> Result<(), Memory> {
    for sort in draft.vars.as_slice() {
        line.push_str(&format!(in alloc; "{sort} ")?)?;
    }
    line.push_str("|")?;
    show_cells(draft.left.as_slice(), alloc, line)?;
    line.push_str(" =>")?;
    show_cells(draft.right.as_slice(), alloc, line)?;
    show_conditions(alloc, line, draft.when.as_slice())
}

fn show_unbound(alloc: Global, line: &mut String, var: Unbound) -> Result<(), Memory> {
    match var {
        Unbound::Named(symbol) => {
            let number = symbol.0;
            line.push_str(&format!(in alloc; "unbound {number}")?)?;
        }
        Unbound::Wild => line.push_str("unbound _")?,
        Unbound::Dots => line.push_str("unbound ...")?,
    }
    Ok(())
}

fn shown(alloc: Global, case: &Case) -> Result<String, Memory> {
    let (grammar, cells) = (productions(alloc)?, cells(alloc)?);
    let tokens = tokens_of(alloc, case.text)?;
    let words = words_of(alloc, case.text, case.sorts)?;
    let rule = rule_of(alloc, case)?;
    let mut line = String::new(alloc);
    match read_draft(alloc, 1, &grammar, &cells, &tokens, &words, &rule) {
        Ok(draft) => show_draft(alloc, &mut line, &draft)?,
        Err(DraftFault::PatternForm { token }) => {
            line.push_str(&format!(in alloc; "form {token}")?)?;
        }
        Err(DraftFault::NotBoundLeft { var }) => show_unbound(alloc, &mut line, var)?,
        Err(DraftFault::Memory) => return Err(Memory),
    }
    Ok(line)
}

/// What is read otherwise than it should be, and nothing where all is right.
fn otherwise(alloc: Global, cases: &[Case]) -> Result<String, Memory> {
    let mut line = String::new(alloc);
    for case in cases {
        let (text, wanted) = (case.text, case.wanted);
        let read = shown(alloc, case)?;
        if read.as_str() != wanted {
            line.push_str(&format!(in alloc; "{text}: {read} for {wanted}; ")?)?;
        }
    }
    Ok(line)
}

/// Rules of an imperative and of a concurrent language.
#[test]
fn reads_rules(rt: HostRuntime) -> Result<(), Fail> {
    assert_eq!(rt; otherwise(rt.alloc(), &RULES)?.as_str(), "");
    Ok(())
}

/// Sequences, lists, and contents by expressions.
#[test]
fn reads_wholes(rt: HostRuntime) -> Result<(), Fail> {
    assert_eq!(rt; otherwise(rt.alloc(), &WHOLES)?.as_str(), "");
    Ok(())
}

/// Forms that no rule has, and variables that the left side does not have.
#[test]
fn refuses_forms(rt: HostRuntime) -> Result<(), Fail> {
    assert_eq!(rt; otherwise(rt.alloc(), &REFUSED)?.as_str(), "");
    Ok(())
}
