ghost use Rattle.std.specs.Prelude.{◌≤◌, IfOk, length};
ghost use Rattle.k_lexer.specs.Lexing.{AreTokens};
ghost use Rattle.definition_syntax.specs.Syntaxes.{IsOnlyDefinition};

use definition_syntax::{Definition, read_definition};
use file_reader::Sentence;
use k_lexer::Token;
use k_terms::{Memory, Names, Op, Text, Value};
use rule_reader::{RuleFault, RuleGrammar, RuleRefusal, read_rule};
use rule_terms::{Body, CellPat, CellShape, Cond, Draft, Kind, Pattern};
use std::alloc::Global;

mod concurrent;
mod imperative;
mod refusals;

/// A declared cell: its name, the number of the one that it stands in, and what it contains.
pub(super) type Cell = (&'static str, Option<u32>, Kind);

fn cells_of(alloc: Global, cells: &[Cell]) -> Result<Vec<CellShape>, Memory>
    ensures { IfOk result (λ found. length found.items ≤ 8) }
{
    let mut found = Vec::new(alloc);
    for (name, parent, kind) in cells {
        found.push(CellShape {
            name: Text::from_vec(Vec::from_slice(alloc, name.as_bytes())?),
            parent: *parent,
            many: false,
            kind: *kind,
        })?;
    }
    if found.len() > 8 {
        return Ok(Vec::new(alloc));
    }
    Ok(found)
}

// ---- drafts, printed to one line

fn op_name(op: Op) -> &'static str {
    match op {
        Op::MulInt => " mul(",
        Op::DivInt => " div(",
        Op::AddInt => " add(",
        Op::SubInt => " sub(",
        Op::LtInt => " lt(",
        Op::LeInt => " le(",
        Op::GtInt => " gt(",
        Op::NeInt => " ne(",
        Op::InKeys => " in(",
        Op::Not => " not(",
        Op::And => " and(",
        Op::Or => " or(",
        Op::SizeMap => " size(",
        Op::SetKey => " set(",
        _ => " op(",
    }
}

fn show_rest(alloc: Global, line: &mut String, rest: Option<u32>) -> Result<(), Memory> {
    match rest {
        Some(rest) => Ok(line.push_str(&format!(in alloc; " ..{rest}")?)?),
        None => Ok(()),
    }
}

fn show_value(alloc: Global, line: &mut String, value: &Value) -> Result<(), Memory> {
    match value {
        Value::Int(number) => Ok(line.push_str(&format!(in alloc; " #{number}")?)?),
        Value::Bool(truth) => Ok(line.push_str(&format!(in alloc; " {truth}")?)?),
        _ => Ok(line.push_str(" ?")?),
    }
}

#[cycle(showing)]
fn show(pattern: &Pattern, alloc: Global, line: &mut String) -> Result<(), Memory> {
    match pattern {
        Pattern::Var(variable) => line.push_str(&format!(in alloc; " {variable}")?)?,
        Pattern::Lit(value) => show_value(alloc, line, value)?,
        Pattern::Freezer(_, _, _) => line.push_str(" ?")?,
        Pattern::Node(prod, parts) => {
            line.push_str(&format!(in alloc; " p{prod}(")?)?;
            show_all(parts.as_slice(), alloc, line)?;
            line.push_str(" )")?;
        }
        Pattern::Items(prod, parts, rest) => {
            line.push_str(&format!(in alloc; " p{prod}[")?)?;
            show_all(parts.as_slice(), alloc, line)?;
            show_rest(alloc, line, *rest)?;
            line.push_str(" ]")?;
        }
        Pattern::Seq(parts, rest) => {
            line.push_str(" <")?;
            show_all(parts.as_slice(), alloc, line)?;
            show_rest(alloc, line, *rest)?;
            line.push_str(" >")?;
        }
        Pattern::Apply(op, parts) => {
            line.push_str(op_name(*op))?;
            show_all(parts.as_slice(), alloc, line)?;
            line.push_str(" )")?;
        }
    }
    Ok(())
}

#[cycle(showing)]
fn show_all(patterns: &[Pattern], alloc: Global, line: &mut String) -> Result<(), Memory> {
    for pattern in patterns {
        show(pattern, alloc, line)?;
    }
    Ok(())
}

fn show_entries(
    alloc: Global,
    line: &mut String,
    entries: &[(Pattern, Pattern)],
) -> Result<(), Memory> {
    line.push_str(" {")?;
    for (key, value) in entries {
        show(key, alloc, line)?;
        line.push_str(":")?;
        show(value, alloc, line)?;
    }
    Ok(line.push_str(" }")?)
}

#[cycle(cells)]
fn show_body(body: &Body, alloc: Global, line: &mut String) -> Result<(), Memory> {
    match body {
        Body::Cells(cells, rest) => {
            line.push_str(" (")?;
            show_cells(cells.as_slice(), alloc, line)?;
            show_rest(alloc, line, *rest)?;
            line.push_str(" )")?;
        }
        Body::Seq(parts, rest) => {
            show_all(parts.as_slice(), alloc, line)?;
            show_rest(alloc, line, *rest)?;
        }
        Body::Map(entries, rest) => {
            show_entries(alloc, line, entries.as_slice())?;
            show_rest(alloc, line, *rest)?;
        }
        Body::List(before, rest, after) => {
            line.push_str(" [")?;
            show_all(before.as_slice(), alloc, line)?;
            show_rest(alloc, line, *rest)?;
            show_all(after.as_slice(), alloc, line)?;
            line.push_str(" ]")?;
        }
        Body::One(part) => show(part, alloc, line)?,
        Body::Made(part) => {
            line.push_str(" made")?;
            show(part, alloc, line)?;
        }
    }
    Ok(())
}

#[cycle(cells)]
fn show_cells(cells: &[CellPat], alloc: Global, line: &mut String) -> Result<(), Memory> {
    for cell in cells {
        line.push_str(&format!(in alloc; " {}/{}", cell.cell, cell.mark)?)?;
        show_body(&cell.body, alloc, line)?;
    }
    Ok(())
}

/// The sorts of the variables, and behind `|` the left cells, `=>`, the right cells, and the condition. A cell is its declared
/// cell and its mark with what it contains, a variable its number, a literal number has a `#`, a rest `..`.
fn show_draft(alloc: Global, draft: &Draft) -> Result<String, Memory> {
    let mut line = String::new(alloc);
    for sort in draft.vars.as_slice() {
        line.push_str(&format!(in alloc; "{sort} ")?)?;
    }
    line.push_str("|")?;
    show_cells(draft.left.as_slice(), alloc, &mut line)?;
    line.push_str(" =>")?;
    show_cells(draft.right.as_slice(), alloc, &mut line)?;
    for condition in draft.when.as_slice() {
        line.push_str(", when")?;
        match condition {
            Cond::Holds(pattern) => show(pattern, alloc, &mut line)?,
            _ => line.push_str(" ?")?,
        }
    }
    Ok(line)
}

// ---- refusals

fn text_of(alloc: Global, text: &Text) -> Result<String, Memory> {
    match std::str::from_utf8(text.as_slice()) {
        Ok(text) => Ok(String::from_str(alloc, text)?),
        Err(_) => Ok(String::new(alloc)),
    }
}

fn show_fault(alloc: Global, fault: &RuleFault) -> Result<String, Memory> {
    Ok(match fault {
        RuleFault::TooMany { n, .. } => format!(in alloc; "TooMany {n}")?,
        RuleFault::BadToken { at } => format!(in alloc; "BadToken {at}")?,
        RuleFault::WideNumber { at } => format!(in alloc; "WideNumber {at}")?,
        RuleFault::Unsorted { var } => format!(in alloc; "Unsorted {}", text_of(alloc, var)?)?,
        RuleFault::SortClash { var, first, second } => {
            let (first, second) = (text_of(alloc, first)?, text_of(alloc, second)?);
            format!(in alloc; "SortClash {} {first} {second}", text_of(alloc, var)?)?
        }
        RuleFault::NoReading { at } => format!(in alloc; "NoReading {at}")?,
        RuleFault::AmbiguousAt { at } => format!(in alloc; "AmbiguousAt {at}")?,
        RuleFault::PatternForm { at } => format!(in alloc; "PatternForm {at}")?,
        RuleFault::NotBoundLeft { var } => {
            format!(in alloc; "NotBoundLeft {}", text_of(alloc, var)?)?
        }
        RuleFault::Memory => format!(in alloc; "Memory")?,
    })
}

fn show_outcome(alloc: Global, outcome: &Result<Draft, RuleRefusal>) -> Result<String, Memory> {
    match outcome {
        Ok(draft) => show_draft(alloc, draft),
        Err(refusal) => show_fault(alloc, &refusal.fault),
    }
}

// ---- definitions

/// Adds the outcome of a rule as a line; any other sentence adds none.
fn add_outcome(
    alloc: Global,
    grammar: &RuleGrammar<'_>,
    cells: &[CellShape],
    names: &mut Names,
    text: &[u8],
    tokens: &[Token],
    sentence: &Sentence,
    lines: &mut String,
) -> Result<(), Memory>
    requires few { length cells.now ≤ 8 }
    requires tokens { AreTokens text.now tokens.now }
{
    let Sentence::Rule { .. } = sentence else {
        return Ok(());
    };
    let outcome = read_rule(alloc, grammar, cells, names, text, tokens, sentence);
    lines.push_str(&show_outcome(alloc, &outcome)?)?;
    lines.push_str("\n")?;
    Ok(())
}

fn sentences_shown(
    alloc: Global,
    grammar: &RuleGrammar<'_>,
    cells: &[CellShape],
    names: &mut Names,
    text: &[u8],
    tokens: &[Token],
    sentences: &[Sentence],
) -> Result<String, Memory>
    requires few { length cells.now ≤ 8 }
    requires tokens { AreTokens text.now tokens.now }
{
    let mut lines = String::new(alloc);
    for sentence in sentences {
        add_outcome(
            alloc, grammar, cells, names, text, tokens, sentence, &mut lines,
        )?;
    }
    Ok(lines)
}

fn definition_shown(
    alloc: Global,
    text: &[u8],
    cells: &[CellShape],
    definition: Definition,
) -> Result<String, Memory>
    requires few { length cells.now ≤ 8 }
    requires only { IsOnlyDefinition text.now definition }
{
    let Definition {
        tokens,
        sentences,
        grammar,
        mut names,
    } = definition;
    let rules = grammar.for_rules(alloc)?;
    let reader = RuleGrammar::new(alloc, &rules)?;
    let (tokens, sentences) = (tokens.as_slice(), sentences.as_slice());
    sentences_shown(alloc, &reader, cells, &mut names, text, tokens, sentences)
}

/// The outcome of each rule of a definition, a line each.
pub(super) fn outcomes(alloc: Global, text: &str, cells: &[Cell]) -> Result<String, Memory> {
    let cells = cells_of(alloc, cells)?;
    match read_definition(alloc, text.as_bytes()) {
        Ok(definition) => definition_shown(alloc, text.as_bytes(), &cells, definition),
        Err(_) => Ok(String::from_str(alloc, "no definition")?),
    }
}
