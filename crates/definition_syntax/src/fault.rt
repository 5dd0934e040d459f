ghost use Rattle.std.specs.Prelude.{◌≡◌};
ghost use Rattle.definition_syntax.specs.Syntaxes.{told_lex, told_module, told_sort};
ghost use Rattle.definition_syntax.specs.declared.fault.SyntaxFault.TheVariants.{Memory as WantOfMemory};

use k_lexer::LexFault;
use k_terms::Memory;
use module_reader::ModuleFault;
use sorted_grammar::SortFault;

/// Why a text is no definition with a grammar. The faults that it carries are never want of memory, which is one of its own.
#[derive(Debug, Drop, PartialEq, Eq)]
pub enum SyntaxFault {
    /// Its text has no tokens.
    Lex(LexFault),
    /// Its tokens are no modules that can be put together.
    Module(ModuleFault),
    /// Its sentences have no grammar.
    Sort(SortFault),
    /// Memory was wanting.
    Memory,
}

impl From<Memory> for SyntaxFault {
    ghost from_gives = { λ _ fault. fault ≡ WantOfMemory };

    fn from(_memory: Memory) -> SyntaxFault {
        SyntaxFault::Memory
    }
}

/// What a fault of the tokens is told as.
pub(crate) fn lex_fault(fault: LexFault) -> SyntaxFault
    ensures { result ≡ told_lex fault }
{
    match fault {
        LexFault::Memory => SyntaxFault::Memory,
        fault => SyntaxFault::Lex(fault),
    }
}

/// What a fault of the modules is told as.
pub(crate) fn module_fault(fault: ModuleFault) -> SyntaxFault
    ensures { result ≡ told_module fault }
{
    match fault {
        ModuleFault::Memory => SyntaxFault::Memory,
        fault => SyntaxFault::Module(fault),
    }
}

/// What a fault of the sorts and productions is told as.
pub(crate) fn sort_fault(fault: SortFault) -> SyntaxFault
    ensures { result ≡ told_sort fault }
{
    match fault {
        SortFault::Memory => SyntaxFault::Memory,
        fault => SyntaxFault::Sort(fault),
    }
}
