//! The sorts by their names.
ghost use Rattle.std.specs.Prelude.{◌≡◌, ◌<◌, [], map, length, slice_get, Some, IfOk, IfSome};
ghost use Rattle.k_terms.specs.Names.{number_of, with_word};
ghost use Rattle.sorted_grammar.specs.Naming.{built_in_names, with_words, with_sort, names_of};

use file_reader::Sentence;
use indexmap::IndexSet;
use k_terms::{Many, Memory, Text};
use std::alloc::Global;
use std::marker::Model;

/// The names of the sorts in the order of their numbers.
#[derive(Drop)]
pub struct SortNames<'a> {
    names: IndexSet<&'a [u8]>,
}

impl<'a> Model for SortNames<'a> {
    ghost use Rattle.std.specs.Prelude.{List, ℕ, map};

    ghost Value = { List (List ℕ) };

    ghost view = { λ sorts. map (λ name. name.now) sorts.names.keys };
}

impl<'a> SortNames<'a> {
    fn new(alloc: Global) -> SortNames<'a>
        ensures { result ≡ [] }
    {
        SortNames {
            names: IndexSet::new(alloc),
        }
    }

    /// Adds a sort, if it is new.
    fn add(&mut self, name: &'a [u8]) -> Result<(), Memory>
        ensures { IfOk result (λ _. self.new ≡ with_word self.old name.now) }
    {
        self.names.insert(name)?;
        Ok(())
    }

    fn add_all(&mut self, names: &[&'static str]) -> Result<(), Memory>
        ensures { IfOk result (λ _. self.new ≡ with_words self.old (map (λ name. name.now) names.now)) }
    {
        for name in names {
            self.add(name.as_bytes())?;
        }
        Ok(())
    }

    /// The built-in sorts.
    fn built_in(alloc: Global) -> Result<SortNames<'a>, Memory>
        ensures { IfOk result (λ sorts. sorts ≡ built_in_names) }
    {
        let mut sorts = SortNames::new(alloc);
        sorts.add_all(&[
            "K", "KItem", "KResult", "Int", "Bool", "String", "Id", "Map", "List", "Bag",
        ])?;
        Ok(sorts)
    }

    fn add_sentence(&mut self, sentence: &'a Sentence) -> Result<(), Memory>
        ensures { IfOk result (λ _. self.new ≡ with_sort self.old sentence.now) }
    {
        match sentence {
            Sentence::Syntax { sort, .. } => self.add(sort.as_slice()),
            Sentence::Config { .. } | Sentence::Rule { .. } => Ok(()),
        }
    }

    /// The sorts of sentences, in time linear in these.
    pub fn read(alloc: Global, sentences: &'a [Sentence]) -> Result<SortNames<'a>, Memory>
        ensures { IfOk result (λ sorts. sorts ≡ names_of sentences.now) }
    {
        let mut sorts = SortNames::built_in(alloc)?;
        for sentence in sentences {
            sorts.add_sentence(sentence)?;
        }
        Ok(sorts)
    }

    pub fn len(&self) -> usize
        ensures { result ≡ length self.now }
    {
        self.names.len()
    }

    /// The number of the sort of a name.
    pub fn number(&self, name: &[u8]) -> Option<usize>
        ensures number { result ≡ number_of self.now name.now }
        ensures within { IfSome result (λ number. number < length self.now) }
    {
        self.names.get_index_of(name)
    }

    /// The name of the sort of a number, as a text of its own.
    fn text(&self, alloc: Global, number: usize) -> Result<Text, Memory>
        requires { number < length self.now }
        ensures { IfOk result (λ text. slice_get self.now number ≡ Some text) }
    {
        let Some(name) = self.names.get_index(number) else {
            unreachable!()
        };
        Ok(Many::from_vec(Vec::from_slice(alloc, name)?))
    }

    /// The names as texts of their own.
    pub fn texts(&self, alloc: Global) -> Result<Many<Text>, Memory>
        ensures { IfOk result (λ texts. texts ≡ self.now) }
    {
        let mut texts = Vec::with_capacity(alloc, self.names.len())?;
        for number in 0..self.len() {
            texts.push(self.text(alloc, number)?)?;
        }
        Ok(Many::from_vec(texts))
    }
}
