//! The lines of the refusals of definitions.
ghost use Rattle.std.specs.Prelude.{◌≡◌, ◌++◌, IfOk};
ghost use Rattle.std.specs.Fmt.{decimal};
ghost use Rattle.krun.specs.Lines.{line_end, lex_line, module_line, sort_line, what_word, counted, fault_line};

use crate::cell_fault::{line_of_cell_refusal, line_of_unclear_cells};
use crate::rule_fault::{line_of_refusal, line_of_strict_fault};
use context_transform::DefFault;
use k_lexer::LexFault;
use k_terms::Memory;
use module_reader::ModuleFault;
use sorted_grammar::{SortFault, What};
use std::alloc::Global;

/// The line that the refusal of a definition writes.
pub fn line_of_fault(alloc: Global, fault: &DefFault) -> Result<Vec<u8>, Memory>
    ensures { IfOk result (λ line. line.items ≡ fault_line fault.now) }
{
    match fault {
        DefFault::TooBig { bytes } => numbered_line(alloc, "definition 27 TooBig bytes=", *bytes),
        DefFault::Lex(fault) => line_of_lex_fault(alloc, *fault),
        DefFault::Module(fault) => line_of_module_fault(alloc, fault),
        DefFault::Sort(fault) => line_of_sort_fault(alloc, fault),
        DefFault::Strict(fault) => line_of_strict_fault(alloc, *fault),
        DefFault::Cell(refusal) => line_of_cell_refusal(alloc, refusal),
        DefFault::TooMany { what, n } => count_line(alloc, *what, *n),
        DefFault::Rule(refusal) => line_of_refusal(alloc, refusal),
        DefFault::Complete(refusal) => line_of_unclear_cells(alloc, refusal),
        DefFault::Memory => Ok(Vec::new(alloc)),
    }
}

/// The line of what there is too much of.
pub(crate) fn count_line(alloc: Global, what: What, n: u64) -> Result<Vec<u8>, Memory>
    ensures { IfOk result (λ line. line.items ≡ counted what n) }
{
    let word = word_of_what(what);
    let line = format!(in alloc; "definition 11 TooMany what={word} n={n}\n")?;
    Ok(Vec::from_slice(alloc, line.as_bytes())?)
}

/// The line of a fault of the tokens.
fn line_of_lex_fault(alloc: Global, fault: LexFault) -> Result<Vec<u8>, Memory>
    ensures { IfOk result (λ line. line.items ≡ lex_line fault) }
{
    match fault {
        LexFault::BadByte { at } => numbered_line(alloc, "definition 1 BadByte at=", at as u64),
        LexFault::OpenString { at } => {
            numbered_line(alloc, "definition 2 OpenString at=", at as u64)
        }
        LexFault::OpenComment { at } => {
            numbered_line(alloc, "definition 3 OpenComment at=", at as u64)
        }
        LexFault::Memory => Ok(Vec::new(alloc)),
    }
}

/// The line of a fault of the modules.
fn line_of_module_fault(alloc: Global, fault: &ModuleFault) -> Result<Vec<u8>, Memory>
    ensures { IfOk result (λ line. line.items ≡ module_line fault.now) }
{
    match fault {
        ModuleFault::Expected { at } => {
            numbered_line(alloc, "definition 4 Expected at=", *at as u64)
        }
        ModuleFault::NoModule { name } => {
            named_line(alloc, "definition 5 NoModule name=", name.as_slice())
        }
        ModuleFault::ImportCycle { name } => {
            named_line(alloc, "definition 6 ImportCycle name=", name.as_slice())
        }
        ModuleFault::TwoModules { name } => {
            named_line(alloc, "definition 7 TwoModules name=", name.as_slice())
        }
        ModuleFault::Memory => Ok(Vec::new(alloc)),
    }
}

/// The words for what there are too many of.
pub(crate) fn word_of_what(what: What) -> &'static str
    ensures { result.now ≡ what_word what }
{
    match what {
        What::Sorts => "sorts",
        What::Productions => "productions",
        What::Rules => "rules",
        What::Cells => "cells",
        What::RuleTokens => "rule tokens",
        What::PatternCells => "pattern cells",
        What::NewCells => "new cells",
    }
}

/// The line of a fault of the sorts and productions.
fn line_of_sort_fault(alloc: Global, fault: &SortFault) -> Result<Vec<u8>, Memory>
    ensures { IfOk result (λ line. line.items ≡ sort_line fault.now) }
{
    match fault {
        SortFault::TooMany { what, n } => count_line(alloc, *what, *n),
        SortFault::NoSort { name } => {
            named_line(alloc, "definition 8 NoSort name=", name.as_slice())
        }
        SortFault::SubsortCycle { sort } => {
            named_line(alloc, "definition 9 SubsortCycle sort=", sort.as_slice())
        }
        SortFault::CyclicProduction { prod } => {
            numbered_line(alloc, "definition 10 CyclicProduction prod=", *prod as u64)
        }
        SortFault::Memory => Ok(Vec::new(alloc)),
    }
}

/// A line of a text and a number.
pub fn numbered_line(alloc: Global, text: &str, number: u64) -> Result<Vec<u8>, Memory>
    ensures { IfOk result (λ line. line.items ≡ text.now ++ decimal number ++ line_end) }
{
    let line = format!(in alloc; "{text}{number}\n")?;
    Ok(Vec::from_slice(alloc, line.as_bytes())?)
}

/// A line of a text and a name.
pub(crate) fn named_line(alloc: Global, text: &str, name: &[u8]) -> Result<Vec<u8>, Memory>
    ensures { IfOk result (λ line. line.items ≡ text.now ++ name.now ++ line_end) }
{
    let mut line = Vec::from_slice(alloc, text.as_bytes())?;
    line.extend_from_slice(name)?;
    line.push(b'\n')?;
    Ok(line)
}
