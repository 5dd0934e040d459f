//! The lines of the refusals of rules.
ghost use Rattle.std.specs.Prelude.{◌≡◌, ◌++◌, IfOk, codes};
ghost use Rattle.std.specs.Fmt.{decimal};
ghost use Rattle.rule_reader.specs.declared.refusal.RuleFault.TheVariants.{SortClash};
ghost use Rattle.krun.specs.Lines.{line_end, of_rule, strict_line, rule_numbered, rule_named, rule_fault_line};

use crate::def_fault::word_of_what;
use k_terms::Memory;
use rule_reader::{RuleFault, RuleRefusal};
use std::alloc::Global;
use strictness::StrictFault;

/// A line of a production and a place, with a name before them.
fn place_line(alloc: Global, name: &str, prod: u64, place: u64) -> Result<Vec<u8>, Memory>
    ensures { IfOk result (λ line. line.items ≡ name.now ++ codes " prod=" ++ decimal prod ++ codes " place=" ++ decimal place ++ line_end) }
{
    let line = format!(in alloc; "{name} prod={prod} place={place}\n")?;
    Ok(Vec::from_slice(alloc, line.as_bytes())?)
}

/// The line of a fault of the strict productions.
pub fn line_of_strict_fault(alloc: Global, fault: StrictFault) -> Result<Vec<u8>, Memory>
    ensures { IfOk result (λ line. line.items ≡ strict_line fault) }
{
    match fault {
        StrictFault::BadStrict { prod, place } => {
            place_line(alloc, "definition 21 BadStrict", prod as u64, place as u64)
        }
        StrictFault::Memory => Ok(Vec::new(alloc)),
    }
}

/// A line of a refusal of a rule, with a place.
fn numbered_line(alloc: Global, name: &str, rule: usize, at: usize) -> Result<Vec<u8>, Memory>
    ensures { IfOk result (λ line. line.items ≡ rule_numbered name.now rule at) }
{
    let line = format!(in alloc; "{name} rule={rule} at={at}\n")?;
    Ok(Vec::from_slice(alloc, line.as_bytes())?)
}

/// A line of a refusal of a rule, with a variable.
fn named_line(alloc: Global, name: &str, rule: usize, var: &[u8]) -> Result<Vec<u8>, Memory>
    ensures { IfOk result (λ line. line.items ≡ rule_named name.now rule var.now) }
{
    let front = format!(in alloc; "{name} rule={rule} var=")?;
    let mut line = Vec::from_slice(alloc, front.as_bytes())?;
    line.extend_from_slice(var)?;
    line.push(b'\n')?;
    Ok(line)
}

/// A line of a refusal of a rule, with what there is too much of.
fn counted_line(
    alloc: Global,
    name: &str,
    rule: usize,
    what: &str,
    n: u64,
) -> Result<Vec<u8>, Memory>
    ensures { IfOk result (λ line. line.items ≡ of_rule name.now rule ++ codes " what=" ++ what.now ++ codes " n=" ++ decimal n ++ line_end) }
{
    let line = format!(in alloc; "{name} rule={rule} what={what} n={n}\n")?;
    Ok(Vec::from_slice(alloc, line.as_bytes())?)
}

/// The line of a variable of two sorts.
fn clash_line(
    alloc: Global,
    rule: usize,
    var: &[u8],
    first: &[u8],
    second: &[u8],
) -> Result<Vec<u8>, Memory>
    ensures { IfOk result (λ line. line.items ≡ rule_fault_line rule (SortClash var.now first.now second.now)) }
{
    let front = format!(in alloc; "definition 18 SortClash rule={rule} var=")?;
    let mut line = Vec::from_slice(alloc, front.as_bytes())?;
    line.extend_from_slice(var)?;
    line.extend_from_slice(b" first=")?;
    line.extend_from_slice(first)?;
    line.extend_from_slice(b" second=")?;
    line.extend_from_slice(second)?;
    line.push(b'\n')?;
    Ok(line)
}

/// The line of a refused rule.
pub fn line_of_refusal(alloc: Global, refusal: &RuleRefusal) -> Result<Vec<u8>, Memory>
    ensures { IfOk result (λ line. line.items ≡ rule_fault_line refusal.now.at refusal.now.fault) }
{
    let rule = refusal.at;
    match &refusal.fault {
        RuleFault::TooMany { what, n } => {
            let what = word_of_what(*what);
            counted_line(alloc, "definition 11 TooMany", rule, what, *n)
        }
        RuleFault::BadToken { at } => numbered_line(alloc, "definition 12 BadToken", rule, *at),
        RuleFault::WideNumber { at } => numbered_line(alloc, "definition 16 WideNumber", rule, *at),
        RuleFault::Unsorted { var } => {
            named_line(alloc, "definition 17 Unsorted", rule, var.as_slice())
        }
        RuleFault::SortClash { var, first, second } => clash_line(
            alloc,
            rule,
            var.as_slice(),
            first.as_slice(),
            second.as_slice(),
        ),
        RuleFault::NoReading { at } => numbered_line(alloc, "definition 13 NoReading", rule, *at),
        RuleFault::AmbiguousAt { at } => {
            numbered_line(alloc, "definition 14 AmbiguousAt", rule, *at)
        }
        RuleFault::PatternForm { at } => {
            numbered_line(alloc, "definition 20 PatternForm", rule, *at)
        }
        RuleFault::NotBoundLeft { var } => {
            named_line(alloc, "definition 19 NotBoundLeft", rule, var.as_slice())
        }
        RuleFault::Memory => Ok(Vec::new(alloc)),
    }
}
