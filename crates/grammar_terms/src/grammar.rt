ghost use Rattle.std.specs.Prelude.{◌≡◌, ◌↔◌, ◌<◌, ◌≤◌, ◌^◌, ◌++◌, length, map, IfOk, IsTrue, option_copied, option_map, slice_get, Some, None};
ghost use Rattle.grammar_terms.specs.Grammar.{label_of, order_of, production_at, sort_number as number_of_sort};
ghost use Rattle.grammar_terms.specs.Builtins.{with_builtins, operator_of, operators_in};
ghost use Rattle.grammar_terms.specs.Reading.{IsForRules};
ghost use Rattle.grammar_terms.specs.Edges.{permitted as may_stand};

use crate::builtin::{OPERATORS, operator_at};
use crate::copies::{add_copies, copy_names, copy_prods};
use crate::edges::permits;
use crate::labels::labels_of;
use crate::production::Production;
use crate::rule_grammar::rule_prods;
use crate::sort_steps::order_by_prods;
use k_terms::{Many, Memory, Op, Sorts, Text};
use std::alloc::Global;
use std::marker::Model;

/// A grammar: its sorts by their names and in their order, and its productions with their labels.
#[derive(Debug, Drop)]
pub struct Grammar {
    names: Many<Text>,
    prods: Many<Production>,
    declared: usize,
    labels: Many<Text>,
    sorts: Sorts,
}

impl Model for Grammar {
    ghost use Rattle.std.specs.Prelude.{◌≡◌, ◌≤◌, ◌^◌, take, map, length};
    ghost use Rattle.grammar_terms.specs.Grammar.{Syntax, label_of, order_by};

    ghost Value = { Syntax };

    ghost view = { λ grammar. record { names = grammar.names; prods = grammar.prods; declared = grammar.declared } };

    ghost invariant = { λ grammar. (length grammar.names ≤ 2 ^ 32) × (grammar.declared ≤ length grammar.prods) × (grammar.labels ≡ map (label_of grammar.names) grammar.prods) × (grammar.sorts ≡ order_by (take grammar.declared grammar.prods)) };
}

impl Grammar {
    /// The grammar of sorts by their names, the builtin ones first, and of declared productions.
    pub fn new(alloc: Global, names: Many<Text>, prods: Many<Production>) -> Result<Grammar, Memory>
        requires { length names ≤ 2 ^ 32 }
        ensures ok { IfOk result (λ grammar. grammar ≡ record { names = names; prods = prods; declared = length prods }) }
    {
        let labels = labels_of(alloc, names.as_slice(), prods.as_slice())?;
        let sorts = order_by_prods(alloc, prods.as_slice())?;
        Ok(Grammar {
            declared: prods.len(),
            names,
            prods,
            labels,
            sorts,
        })
    }

    /// The grammar for rules: the declared productions, and behind them the operators in the order of `Op` and parentheses
    /// for each sort, in the order of their numbers. The operators of no group and the parentheses are kept out nowhere, and
    /// keep nothing out.
    pub fn for_rules(&self, alloc: Global) -> Result<Grammar, Memory>
        ensures { IfOk result (λ grammar. grammar ≡ with_builtins self.now) }
    {
        let declared = self.prods.as_slice().split_at(self.declared).0;
        let names = copy_names(alloc, self.names.as_slice())?;
        let prods = rule_prods(alloc, names.as_slice(), declared)?;
        let labels = labels_of(alloc, names.as_slice(), prods.as_slice())?;
        let sorts = order_by_prods(alloc, declared)?;
        Ok(Grammar {
            declared: self.declared,
            names,
            prods,
            labels,
            sorts,
        })
    }

    /// The grammar with further productions behind all others. They are no declared ones, so the order of sorts stays.
    pub fn with_more(&self, alloc: Global, more: &[Production]) -> Result<Grammar, Memory>
        ensures { IfOk result (λ grammar. grammar ≡ record { names = self.now.names; prods = self.now.prods ++ more.now; declared = self.now.declared }) }
    {
        let names = copy_names(alloc, self.names.as_slice())?;
        let mut prods = copy_prods(alloc, self.prods.as_slice())?;
        add_copies(alloc, more, &mut prods)?;
        let labels = labels_of(alloc, names.as_slice(), prods.as_slice())?;
        Ok(Grammar {
            declared: self.declared,
            sorts: self.own_order(alloc)?,
            names,
            prods: Many::from_vec(prods),
            labels,
        })
    }

    /// The order of the sorts once more.
    fn own_order(&self, alloc: Global) -> Result<Sorts, Memory>
        ensures { IfOk result (λ sorts. sorts ≡ order_of self.now) }
    {
        order_by_prods(alloc, self.prods.as_slice().split_at(self.declared).0)
    }

    /// Whether there are builtin productions behind the declared ones.
    pub fn is_for_rules(&self) -> bool
        ensures { IsTrue result ↔ IsForRules self.now }
    {
        self.declared < self.prods.len()
    }

    /// The operator that a production is, where it is one.
    pub fn operator(&self, prod: u32) -> Option<Op>
        ensures { result ≡ operator_of self.now prod }
    {
        if self.declared < prod as usize && prod as usize <= self.prods.len() {
            operator_at(prod as usize - 1 - self.declared)
        } else {
            None
        }
    }

    /// The productions that are operators, in the order of `Op`; none where the grammar is of programs.
    pub fn operator_prods(&self) -> &[Production]
        ensures { result.now ≡ operators_in self.now }
    {
        let builtin = self.prods.as_slice().split_at(self.declared).1;
        match builtin.split_at_checked(OPERATORS.len()) {
            Some((operators, _)) => operators,
            None => builtin,
        }
    }

    /// The order of the sorts, and the sort of each declared production.
    pub fn sorts(&self) -> &Sorts
        ensures { result.now ≡ order_of self.now }
    {
        &self.sorts
    }

    /// The productions in order, production 1 first.
    pub fn prods(&self) -> &[Production]
        ensures { result.now ≡ self.now.prods }
    {
        self.prods.as_slice()
    }

    /// The production of a number, where there is one.
    pub fn production(&self, prod: u32) -> Option<&Production>
        ensures { option_copied result ≡ production_at self.now.prods prod }
    {
        match prod.checked_sub(1) {
            Some(index) => self.prods.get(index as usize),
            None => None,
        }
    }

    /// The label of each production, production 1 first: its terminals in order with `_` for each sort, the word of a prefix
    /// production, the sort of a list production.
    pub fn labels(&self) -> &[Text]
        ensures { result.now ≡ map (label_of self.now.names) self.now.prods }
    {
        self.labels.as_slice()
    }

    /// The label of a production, where there is such a one.
    pub fn label(&self, prod: u32) -> Option<&Text>
        ensures { option_copied result ≡ option_map (label_of self.now.names) (production_at self.now.prods prod) }
    {
        match prod.checked_sub(1) {
            Some(index) => self.labels.get(index as usize),
            None => None,
        }
    }

    /// Whether a production may stand as the child at a place of another, counted from 0 among all its items: not at the
    /// first or the last one where the child is of a later group of the parent's sentence, or of its group and kept out by
    /// `left`, `right` or `non-assoc`. A bracket may stand anywhere.
    pub fn permitted(&self, parent: u32, place: u32, child: u32) -> bool
        ensures { result ≡ may_stand self.now.prods parent place child }
    {
        let Some(outer) = self.production(parent) else {
            return true;
        };
        let Some(inner) = self.production(child) else {
            return true;
        };
        permits(outer, place, inner)
    }

    /// The number of the sort of a name.
    pub fn sort_number(&self, name: &str) -> Option<u32>
        ensures { result ≡ number_of_sort self.now.names name.now }
    {
        self.sort_of_bytes(name.as_bytes())
    }

    /// The number of the sort whose name has these bytes.
    pub fn sort_of_bytes(&self, name: &[u8]) -> Option<u32>
        ensures { result ≡ number_of_sort self.now.names name.now }
    {
        let names = self.names.as_slice();
        for (index, other) in names.iter().enumerate() {
            if other.as_slice() == name {
                return Some(index as u32);
            }
        }
        None
    }

    /// Whether a sort has a name.
    pub fn is_named(&self, sort: u32) -> bool
        ensures { IsTrue result ↔ sort < length self.now.names }
    {
        (sort as usize) < self.names.len()
    }

    /// How many sorts have names.
    pub fn count_sorts(&self) -> usize
        ensures { result ≡ length self.now.names }
    {
        self.names.len()
    }

    /// The name of a sort, where there is such a one.
    pub fn sort_name(&self, sort: u32) -> Option<&Text>
        ensures { option_copied result ≡ slice_get self.now.names sort }
    {
        self.names.get(sort as usize)
    }
}
