//! The definition that a text is.
ghost use Rattle.std.specs.Prelude.{◌≡◌, ◌⊎◌, IfOk, IfErr, List, ℕ, length, ◌≤◌};
ghost use Rattle.k_lexer.specs.Lexing.{AreTokens};
ghost use Rattle.strictness.specs.Places.{declared_in, HaveNoBadPlace};
ghost use Rattle.strictness.specs.Drafts.{strict_drafts};
ghost use Rattle.definition_syntax.specs.Syntaxes.{IsOnlyDefinition};
ghost use Rattle.context_transform.specs.declared.fault.DefFault.TheVariants.{Memory as WantOfMemory};
ghost use Rattle.context_transform.specs.Assembling.{AreCells, HasCellFault, AreRules, HasRuleFault, assembly_of, IsOnlyAssembly, IsOnlyFault};

use crate::defining::defs_of;
use crate::fault::DefFault;
use crate::rules::all_rules;
use crate::sentences::rules_of;
use crate::told::{cell_fault, strict_fault, syntax_fault};
use cell_config::laws::{declared_soundly, not_both, one_refusal, one_tree};
use cell_config::read_cells;
use cell_trees::CellTree;
use definition_syntax::{Definition as Declared, read_definition};
use draft_laws::laws::{written_rules, written_strict};
use k_lexer::Token;
use k_terms::{Many, Names};
use module_reader::Sentence;
use rule_terms::{Defs, Draft, Rule};
use sorted_grammar::{Grammar, What};
use sound_rules::laws::{cells_declare_literals, strict_rules_sound, written_rules_sound};
use std::alloc::Global;
use std::sync::Arc;
use strictness::heat_cool;

/// The greatest length of a definition, in bytes.
const DEFINITION_LIMIT: usize = 1_048_576;

/// The greatest number of rules, with those of strictness.
const RULE_LIMIT: usize = 1_024;

/// A definition, whole.
#[derive(Debug, Drop)]
pub struct Definition {
    /// Its sorts and productions.
    pub grammar: Grammar,
    /// Its declared cells.
    pub tree: CellTree,
    /// The language that is run. Its rules are, from rule 1 on, those that are written, in the order of its sentences, and behind
    /// them those of strictness.
    pub defs: Arc<Defs>,
    /// The words of its text by their numbers.
    pub names: Names,
}

/// The declared cells, with the rules of strictness in their cell `k`.
#[derive(Drop)]
struct Cells {
    tree: CellTree,
    strict: Many<Draft>,
}

/// The declared cells of a definition. A production that may not be strict as it says is told before what its configurations
/// refuse.
fn cells_of(
    alloc: Global,
    grammar: &Grammar,
    names: &mut Names,
    text: &[u8],
    tokens: &[Token],
    sentences: &[Sentence],
) -> Result<Cells, DefFault>
    requires { AreTokens text.now tokens.now }
    ensures ok { IfOk result (λ cells. AreCells grammar.now names.old text.now tokens.now sentences.now cells.tree names.new) }
    ensures strict { IfOk result (λ cells. cells.strict ≡ strict_drafts grammar.now cells.tree.k) }
    ensures fault { IfErr result (λ fault. (fault ≡ WantOfMemory)
        ⊎ HasCellFault grammar.now names.old text.now tokens.now sentences.now fault) }
{
    match read_cells(alloc, grammar, names, text, tokens, sentences) {
        Ok(tree) => match heat_cool(alloc, grammar, tree.cell_k()) {
            Ok(strict) => Ok(Cells { tree, strict }),
            Err(fault) => Err(strict_fault(fault)),
        },
        Err(refusal) => match heat_cool(alloc, grammar, 0) {
            Ok(_) => Err(cell_fault(refusal)),
            Err(fault) => Err(strict_fault(fault)),
        },
    }
}

/// The rules of a definition.
fn rules_of_cells(
    alloc: Global,
    grammar: &Grammar,
    cells: &Cells,
    names: &mut Names,
    text: &[u8],
    tokens: &[Token],
    sentences: &[Sentence],
) -> Result<Vec<Rule>, DefFault>
    requires tokens { AreTokens text.now tokens.now }
    requires strict { cells.now.strict ≡ strict_drafts grammar.now cells.now.tree.k }
    requires no_bad { HaveNoBadPlace (declared_in grammar.now) }
    ensures ok { IfOk result (λ rules. AreRules grammar.now names.old text.now tokens.now sentences.now cells.now.tree rules.items names.new) }
    ensures fault { IfErr result (λ fault. (fault ≡ WantOfMemory)
        ⊎ HasRuleFault grammar.now names.old text.now tokens.now sentences.now cells.now.tree fault) }
{
    let Ok(rules) = rules_of(alloc, sentences) else {
        return Err(DefFault::Memory);
    };
    let (rules, strict) = (rules.as_slice(), cells.strict.as_slice());
    let count = rules.len() + strict.len();
    if count > RULE_LIMIT {
        return Err(DefFault::TooMany {
            what: What::Rules,
            n: count as u64,
        });
    }
    let tree = &cells.tree;
    tree.sound();
    written_strict();
    match all_rules(alloc, grammar, tree, names, text, tokens, rules, strict) {
        Ok(rules) => Ok(rules),
        Err(fault) => Err(fault),
    }
}

/// What the parts of a text define.
fn assembled(alloc: Global, text: &[u8], definition: Declared) -> Result<Definition, DefFault>
    requires definition { IsOnlyDefinition text.now definition }
    requires short { length text.now ≤ 1048576 }
    ensures ok { IfOk result (λ whole. IsOnlyAssembly text.now (assembly_of whole)) }
    ensures fault { IfErr result (λ fault. (fault ≡ WantOfMemory) ⊎ IsOnlyFault text.now fault) }
{
    let Declared {
        tokens,
        sentences,
        grammar,
        mut names,
    } = definition;
    one_tree();
    one_refusal();
    not_both();
    let (tokens, sentences) = (tokens.as_slice(), sentences.as_slice());
    let cells = match cells_of(alloc, &grammar, &mut names, text, tokens, sentences) {
        Ok(cells) => cells,
        Err(fault) => return Err(fault),
    };
    cells.tree.sound();
    written_rules();
    written_strict();
    let rules = match rules_of_cells(alloc, &grammar, &cells, &mut names, text, tokens, sentences) {
        Ok(rules) => rules,
        Err(fault) => return Err(fault),
    };
    declared_soundly();
    cells_declare_literals();
    written_rules_sound();
    strict_rules_sound();
    let Cells { tree, strict: _ } = cells;
    let Ok(defs) = defs_of(alloc, &grammar, &tree, rules) else {
        return Err(DefFault::Memory);
    };
    Ok(Definition {
        grammar,
        tree,
        defs,
        names,
    })
}

/// What a text defines; or its fault, of several the first in this order: it is too long; that of its tokens, of its modules, of its
/// sorts and productions; of its strict productions; of its configurations; that there are too many rules; and rule by rule, written
/// ones before those of strictness, that the rule is none or that its cells are not told.
pub fn assemble(alloc: Global, text: &[u8]) -> Result<Definition, DefFault>
    ensures ok { IfOk result (λ whole. IsOnlyAssembly text.now (assembly_of whole)) }
    ensures fault { IfErr result (λ fault. (fault ≡ WantOfMemory) ⊎ IsOnlyFault text.now fault) }
{
    if text.len() > DEFINITION_LIMIT {
        return Err(DefFault::TooBig {
            bytes: DEFINITION_LIMIT as u64,
        });
    }
    match read_definition(alloc, text) {
        Ok(definition) => assembled(alloc, text, definition),
        Err(fault) => Err(syntax_fault(fault)),
    }
}
