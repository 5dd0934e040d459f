ghost use Rattle.std.specs.Prelude.{◌≡◌, [], ◌∷◌, ◌++◌, length, None, slice_get, Some, option_copied, option_map, IfOk, IsOk, IsSome, OnOk, OnErr};
ghost use Rattle.k_terms.specs.Names.{number_of, with_word};

use crate::memory::Memory;
use crate::value::Symbol;
use indexmap::IndexSet;
use std::alloc::Global;
use std::marker::Model;

/// The words that were read. A symbol's number is the place of its word, counted from 0.
#[derive(Debug, Drop)]
pub struct Names {
    words: IndexSet<String>,
}

impl Model for Names {
    ghost use Rattle.std.specs.Prelude.{List, ℕ, ◌≤◌, ◌^◌, map, length, string_bytes};
    ghost use Rattle.std.specs.Coded.{coded_list, coded_ℕ};

    ghost Value = { List (List ℕ) };

    ghost coded = { coded_list (coded_list coded_ℕ) };

    ghost view = { λ names. map string_bytes names.words.keys };

    ghost invariant = { λ names. length names.words.keys ≤ 2 ^ 32 };
}

impl Names {
    pub fn new(alloc: Global) -> Names
        ensures { result ≡ [] }
    {
        Names {
            words: IndexSet::new(alloc),
        }
    }

    /// The number of a word. A known word keeps its number, and a new one goes last; it is refused with `Memory` where
    /// every number is taken.
    pub fn number(&mut self, alloc: Global, word: &str) -> Result<Symbol, Memory>
        ensures words { OnOk result (self.new ≡ with_word self.old word.now) }
        ensures number { IfOk result (λ symbol. number_of self.new word.now ≡ Some symbol.0) }
        ensures known { IsSome (number_of self.old word.now) → IsOk result }
        ensures err { OnErr result (self.new ≡ self.old) }
    {
        match self.find(word) {
            Some(symbol) => Ok(symbol),
            None => self.add(alloc, word),
        }
    }

    /// Adds a new word at the end.
    fn add(&mut self, alloc: Global, word: &str) -> Result<Symbol, Memory>
        requires { number_of self.old word.now ≡ None }
        ensures words { OnOk result (self.new ≡ self.old ++ word.now ∷ []) }
        ensures number { IfOk result (λ symbol. symbol.0 ≡ length self.old) }
        ensures err { OnErr result (self.new ≡ self.old) }
    {
        let number = u32::try_from(self.words.len()).map_err(|_| Memory)?;
        let owned = String::from_str(alloc, word)?;
        self.words.insert(owned)?;
        Ok(Symbol(number))
    }

    /// The number of a word, where it is known.
    pub fn find(&self, word: &str) -> Option<Symbol>
        ensures { option_map (λ symbol. symbol.0) result ≡ number_of self.now word.now }
    {
        let index = self.words.get_index_of(word)?;
        Some(Symbol(index as u32))
    }

    /// The word of a symbol, where it has one.
    pub fn word(&self, symbol: Symbol) -> Option<&str>
        ensures { option_copied result ≡ slice_get self.now symbol.0 }
    {
        match self.words.get_index(symbol.0 as usize) {
            Some(word) => Some(word.as_str()),
            None => None,
        }
    }
}
