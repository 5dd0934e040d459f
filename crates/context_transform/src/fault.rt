ghost use Rattle.std.specs.Prelude.{◌≡◌};
ghost use Rattle.context_transform.specs.declared.fault.CellsUnclear.TheVariants.{Memory as UnclearMemory};
ghost use Rattle.context_transform.specs.declared.fault.DefFault.TheVariants.{Memory as WantOfMemory};

use cell_config::CellRefusal;
use k_lexer::LexFault;
use k_terms::{Memory, Text};
use module_reader::ModuleFault;
use rule_reader::RuleRefusal;
use sorted_grammar::{SortFault, What};
use strictness::StrictFault;

/// Why the cells that a rule leaves out are not told. Rules are numbered from 1.
#[derive(Debug, Drop, PartialEq, Eq)]
pub enum CellsUnclear {
    /// A cell of this name is not declared below the cell that encloses it, or it is on one side alone and neither repeated nor
    /// within a cell that is on one side alone. It is the first such cell of the rule's text.
    CellMisplaced { rule: u32, cell: Text },
    /// There is no least completion of the cells that the rule writes.
    Unclear { rule: u32 },
    /// The completed rule has more cells on its left side, or more new ones, than a rule may have: this many.
    TooMany { what: What, n: u64 },
    /// Memory was wanting.
    Memory,
}

impl From<Memory> for CellsUnclear {
    ghost from_gives = { λ _ fault. fault ≡ UnclearMemory };

    fn from(_memory: Memory) -> CellsUnclear {
        CellsUnclear::Memory
    }
}

/// Why a text is no definition, in the order in which it is tried. The faults that it carries are never want of memory, which is
/// one of its own.
#[derive(Debug, Drop, PartialEq, Eq)]
pub enum DefFault {
    /// It has more than this many bytes.
    TooBig { bytes: u64 },
    /// It has no tokens.
    Lex(LexFault),
    /// Its tokens are no modules that can be put together.
    Module(ModuleFault),
    /// Its sentences have no grammar.
    Sort(SortFault),
    /// A production may not be strict as it says.
    Strict(StrictFault),
    /// Its configurations declare no cells.
    Cell(CellRefusal),
    /// It has more rules than a definition may have: this many.
    TooMany { what: What, n: u64 },
    /// A rule is none, the first one that is none or has no completion.
    Rule(RuleRefusal),
    /// A rule has no completion, the first one that is none or has no completion.
    Complete(CellsUnclear),
    /// Memory was wanting.
    Memory,
}

impl From<Memory> for DefFault {
    ghost from_gives = { λ _ fault. fault ≡ WantOfMemory };

    fn from(_memory: Memory) -> DefFault {
        DefFault::Memory
    }
}
