ghost use Rattle.std.specs.Prelude.{◌≡◌, ◌≤◌, ◌⊎◌, length, IfOk, IfErr, MatchResult};
ghost use Rattle.grammar_terms.specs.Grammar.{Syntax};
ghost use Rattle.sorted_grammar.specs.declared.fault.SortFault.TheVariants.{NoSort, Memory as WantOfMemory};
ghost use Rattle.sorted_grammar.specs.declared.fault.SortFault.{SortFault as Fault};
ghost use Rattle.sorted_grammar.specs.Naming.{names_of};
ghost use Rattle.sorted_grammar.specs.Placing.{placed_of, grammar_by};
ghost use Rattle.sorted_grammar.specs.Sorting.{AreFewSorts, AreFewProductions, IsGrammar, IsFault, IsRefusal};

use crate::cycles::refuse_cyclic_production;
use crate::declared::SortNames;
use crate::fault::{SortFault, What};
use crate::placing::{Placed, place_all};
use crate::productions::{missing_sort, productions};
use crate::subsorts::refuse_subsort_cycle;
use file_reader::Sentence;
use grammar_terms::Grammar;
use k_terms::{Memory, Text, copy_text};
use std::alloc::Global;

/// The sorts, unless they are too many.
fn few_sorts(alloc: Global, sentences: &[Sentence]) -> Result<SortNames<'_>, SortFault>
    ensures { MatchResult result (λ names. (names ≡ names_of sentences.now) × AreFewSorts sentences.now) (IsRefusal sentences.now) }
{
    let names = SortNames::read(alloc, sentences)?;
    if names.len() > 266 {
        return Err(SortFault::TooMany {
            what: What::Sorts,
            n: (names.len() - 10) as u64,
        });
    }
    Ok(names)
}

/// The productions by their places, unless they are too many.
fn few_productions(alloc: Global, sentences: &[Sentence]) -> Result<Vec<Placed<'_>>, SortFault>
    requires { AreFewSorts sentences.now }
    ensures { MatchResult result (λ placed. (placed.items ≡ placed_of sentences.now) × AreFewProductions sentences.now) (IsRefusal sentences.now) }
{
    let placed = place_all(alloc, sentences)?;
    if placed.len() > 1024 {
        return Err(SortFault::TooMany {
            what: What::Productions,
            n: placed.len() as u64,
        });
    }
    Ok(placed)
}

/// The fault that a sort of this name is.
fn no_sort(alloc: Global, name: &Text) -> SortFault
    ensures { (result ≡ WantOfMemory) ⊎ (result ≡ NoSort name.now) }
{
    match copy_text(alloc, name) {
        Ok(name) => SortFault::NoSort { name },
        Err(_) => SortFault::Memory,
    }
}

/// The grammar of these sorts and productions.
fn numbered(alloc: Global, names: &SortNames<'_>, placed: &[Placed<'_>]) -> Result<Grammar, Memory>
    requires { length names.now ≤ 266 }
    ensures { IfOk result (λ grammar. grammar ≡ grammar_by names.now placed.now) }
{
    let texts = names.texts(alloc)?;
    let prods = productions(alloc, names, placed)?;
    Grammar::new(alloc, texts, prods)
}

/// The grammar without cycles, or why there is none.
fn sorted(alloc: Global, sentences: &[Sentence]) -> Result<Grammar, SortFault>
    ensures { MatchResult result (IsGrammar sentences.now) (IsRefusal sentences.now) }
{
    let names = few_sorts(alloc, sentences)?;
    let placed = few_productions(alloc, sentences)?;
    if let Some(name) = missing_sort(&names, &placed) {
        return Err(no_sort(alloc, name));
    }
    let grammar = numbered(alloc, &names, &placed)?;
    refuse_subsort_cycle(alloc, &names, sentences, &grammar)?;
    refuse_cyclic_production(alloc, &grammar, names.len() as u32)?;
    Ok(grammar)
}

/// Makes the grammar of a definition from its sentences. The sorts are read in time linear in the sentences.
pub fn read_grammar(alloc: Global, sentences: &[Sentence]) -> Result<Grammar, SortFault>
    ensures ok { IfOk result (IsGrammar sentences.now) }
    ensures fault { IfErr result (λ fault. (fault ≡ WantOfMemory) ⊎ IsFault sentences.now fault) }
    ensures exact { (g : Syntax) → IsGrammar sentences.now g
        → MatchResult result (λ it. it ≡ g) (λ fault. fault ≡ WantOfMemory) }
    ensures exact_fault { (fault : Fault) → IsFault sentences.now fault
        → MatchResult result (λ it. ⊥) (λ other. (other ≡ WantOfMemory) ⊎ (other ≡ fault)) }
{
    sorted(alloc, sentences)
}
