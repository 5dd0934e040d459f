//! The terminals of a grammar, to be looked up.
ghost use Rattle.std.specs.Prelude.{◌≡◌, ◌++◌, ◌∷◌, [], IfOk, OnOk};
ghost use Rattle.production_reader.specs.Allowed.{is_among};
ghost use Rattle.program_tokens.specs.Terminals.{AreSame, terminals_in, separators_of, terminals_of, terminals};
ghost use Rattle.cell_tokens.specs.Lookup.{IsBoundBy, AreBoundBy};

use grammar_terms::{Grammar, Part, Production};
use indexmap::IndexSet;
use k_lexer::is_word;
use k_terms::Memory;
use production_reader::Form;
use std::alloc::Global;
use std::marker::Model;

/// The terminals of a grammar, each once, and how many bytes the longest of them has that is no word.
#[derive(Drop)]
pub struct Terminals<'g> {
    texts: IndexSet<&'g [u8]>,
    greatest: usize,
}

impl<'g> Model for Terminals<'g> {
    ghost use Rattle.std.specs.Prelude.{List, ℕ, map};
    ghost use Rattle.std.specs.List.{AllByRecursion};
    ghost use Rattle.cell_tokens.specs.Lookup.{IsBoundBy};

    ghost Value = { List (List ℕ) };

    ghost view = { λ terminals. map (λ text. text.now) terminals.texts.keys };

    ghost invariant = { λ terminals. AllByRecursion (λ text. IsBoundBy terminals.greatest text.now) terminals.texts.keys };
}

/// The size of a text that is no word, and 0 of a word.
fn other_size(text: &[u8]) -> usize
    ensures { IsBoundBy result text.now }
{
    if is_word(text) {
        return 0;
    }
    text.len()
}

impl<'g> Terminals<'g> {
    /// The terminals of a grammar. The time is linear in their bytes.
    pub fn new(alloc: Global, grammar: &'g Grammar) -> Result<Terminals<'g>, Memory>
        ensures { IfOk result (λ found. AreSame found (terminals grammar.now)) }
    {
        let mut found = Terminals {
            texts: IndexSet::new(alloc),
            greatest: 0,
        };
        let prods = grammar.prods();
        for production in prods {
            found.add_all(production)?;
        }
        Ok(found)
    }

    /// Adds one terminal.
    fn add(&mut self, text: &'g [u8]) -> Result<(), Memory>
        ensures { OnOk result (AreSame self.new (self.old ++ text.now ∷ [])) }
    {
        self.texts.insert(text)?;
        self.greatest = self.greatest.max(other_size(text));
        Ok(())
    }

    /// Adds an item, where it is a terminal.
    fn add_item(&mut self, item: &'g Part) -> Result<(), Memory>
        ensures { OnOk result (AreSame self.new (self.old ++ terminals_in (item.now ∷ []))) }
    {
        match item {
            Part::Terminal(text) => self.add(text.as_slice()),
            Part::Sort(_) => Ok(()),
        }
    }

    /// Adds the terminals among items.
    fn add_items(&mut self, items: &'g [Part]) -> Result<(), Memory>
        ensures { OnOk result (AreSame self.new (self.old ++ terminals_in items.now)) }
    {
        for item in items {
            self.add_item(item)?;
        }
        Ok(())
    }

    /// Adds the separator of a list production, where it is not empty.
    fn add_separator(&mut self, form: &'g Form) -> Result<(), Memory>
        ensures { OnOk result (AreSame self.new (self.old ++ separators_of form.now)) }
    {
        let Form::UserList { separator } = form else {
            return Ok(());
        };
        if separator.is_empty() {
            return Ok(());
        }
        self.add(separator.as_slice())
    }

    /// Adds the terminals of a production.
    fn add_all(&mut self, production: &'g Production) -> Result<(), Memory>
        ensures { OnOk result (AreSame self.new (self.old ++ terminals_of production.now)) }
    {
        self.add_items(production.items.as_slice())?;
        self.add_separator(&production.form)?;
        Ok(())
    }

    /// Whether a text is a terminal.
    pub(crate) fn has(&self, text: &[u8]) -> bool
        ensures { result ≡ is_among self.now text.now }
    {
        self.texts.contains(text)
    }

    /// The size of the longest terminal that is no word.
    pub(crate) fn greatest(&self) -> usize
        ensures { AreBoundBy result self.now }
    {
        self.greatest
    }
}
