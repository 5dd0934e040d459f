//! What the faults of the phases are told as.
ghost use Rattle.std.specs.Prelude.{◌≡◌};
ghost use Rattle.rule_reader.specs.Told.{is_memory as wants_memory};
ghost use Rattle.context_transform.specs.Told.{told_syntax, told_strict, told_cells, told_rule, told_unclear};

use crate::fault::{CellsUnclear, DefFault};
use cell_config::CellRefusal;
use definition_syntax::SyntaxFault;
use rule_reader::{RuleFault, RuleRefusal};
use strictness::StrictFault;

/// A fault of the tokens, the modules or the grammar.
pub(crate) fn syntax_fault(fault: SyntaxFault) -> DefFault
    ensures { result ≡ told_syntax fault }
{
    match fault {
        SyntaxFault::Lex(fault) => DefFault::Lex(fault),
        SyntaxFault::Module(fault) => DefFault::Module(fault),
        SyntaxFault::Sort(fault) => DefFault::Sort(fault),
        SyntaxFault::Memory => DefFault::Memory,
    }
}

/// A fault of the strict productions.
pub(crate) fn strict_fault(fault: StrictFault) -> DefFault
    ensures { result ≡ told_strict fault }
{
    match fault {
        StrictFault::Memory => DefFault::Memory,
        fault => DefFault::Strict(fault),
    }
}

/// A refusal of the configurations.
pub(crate) fn cell_fault(refusal: CellRefusal) -> DefFault
    ensures { result ≡ told_cells refusal }
{
    match refusal {
        CellRefusal::Memory => DefFault::Memory,
        refusal => DefFault::Cell(refusal),
    }
}

fn is_memory(fault: &RuleFault) -> bool
    ensures { result ≡ wants_memory fault.now }
{
    match fault {
        RuleFault::Memory => true,
        _ => false,
    }
}

/// A refusal of a rule.
pub(crate) fn rule_fault(refusal: RuleRefusal) -> DefFault
    ensures { result ≡ told_rule refusal }
{
    if is_memory(&refusal.fault) {
        return DefFault::Memory;
    }
    DefFault::Rule(refusal)
}

/// A refusal of a rule's cells.
pub(crate) fn unclear_fault(refusal: CellsUnclear) -> DefFault
    ensures { result ≡ told_unclear refusal }
{
    match refusal {
        CellsUnclear::Memory => DefFault::Memory,
        refusal => DefFault::Complete(refusal),
    }
}
