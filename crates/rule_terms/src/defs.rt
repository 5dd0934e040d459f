ghost use Rattle.std.specs.Prelude.{◌≡◌, ◌-◌, ◌==◌, cond, None, map, option_copied, slice_get};
ghost use Rattle.std.specs.Arc.{arc_value};
ghost use Rattle.rule_terms.specs.Language.{rule_at, label_at};
ghost use Rattle.rule_terms.specs.Sound.{IsSound};

use crate::rule::Rule;
use k_terms::{Many, Sorts, Text};
use std::marker::Model;
use std::sync::Arc;

/// What a declared cell contains: cells, a sequence, a map, a list, or one value of a sort.
#[derive(Clone, Copy, Debug, PartialEq, Eq)]
pub enum Kind {
    Cells,
    Seq,
    Map,
    List,
    One(u32),
}

/// A declared cell. Its number is its place among the declared cells, counted from 0, in pre-order of the declared
/// configuration. `many` says that it may occur more than once in its parent.
#[derive(Debug, Drop, PartialEq, Eq)]
pub struct CellShape {
    pub name: Text,
    pub parent: Option<u32>,
    pub many: bool,
    pub kind: Kind,
}

/// A definition of a language, as rewriting sees it: the order of its sorts, its declared cells from cell 0, its rules
/// from rule 1, and the labels of its productions from production 1. Each definition is sound: whoever writes one, or
/// changes a field, has to prove it.
#[derive(Debug, Drop)]
pub struct Defs {
    pub sorts: Sorts,
    pub cells: Many<CellShape>,
    pub rules: Many<Arc<Rule>>,
    pub labels: Many<Text>,
}

impl Model for Defs {
    ghost use Rattle.std.specs.Prelude.{map};
    ghost use Rattle.std.specs.Arc.{arc_value};
    ghost use Rattle.rule_terms.specs.Language.{Language};
    ghost use Rattle.rule_terms.specs.Sound.{IsSound};
    ghost use Rattle.std.specs.Coded.{codes};
    ghost use Rattle.rule_terms.specs.contracts.pattern.Pattern as pattern;
    ghost use Rattle.rule_terms.specs.contracts.pattern.Body as body;
    ghost use Rattle.rule_terms.specs.contracts.pattern.CellPat as cell_pat;

    ghost Value = { Language };

    ghost coded = { Prim.hlevel (codes, pattern.the_row.coded, body.the_row.coded, cell_pat.the_row.coded) };

    ghost view = { λ defs.
        record { sorts = defs.sorts; cells = defs.cells; rules = map arc_value defs.rules; labels = defs.labels } };

    ghost invariant = { λ defs.
        IsSound record { sorts = defs.sorts; cells = defs.cells; rules = map arc_value defs.rules; labels = defs.labels } };
}

impl Defs {
    /// The definition with these parts, which make a sound one.
    pub fn new(
        sorts: Sorts,
        cells: Many<CellShape>,
        rules: Many<Arc<Rule>>,
        labels: Many<Text>,
    ) -> Defs
        requires { IsSound record { sorts = sorts; cells = cells; rules = map arc_value rules; labels = labels } }
        ensures { result ≡ record { sorts = sorts; cells = cells; rules = map arc_value rules; labels = labels } }
    {
        Defs {
            sorts,
            cells,
            rules,
            labels,
        }
    }

    /// Does nothing: its contract is what every definition keeps.
    pub fn sound(&self)
        ensures { IsSound self.now }
    {
        let _ = &self.rules;
    }

    pub fn sorts(&self) -> &Sorts
        ensures { result.now ≡ self.now.sorts }
    {
        &self.sorts
    }

    pub fn cells(&self) -> &[CellShape]
        ensures { result.now ≡ self.now.cells }
    {
        self.cells.as_slice()
    }

    /// The rules, rule 1 first.
    pub fn rules(&self) -> &[Arc<Rule>]
        ensures { map arc_value result.now ≡ self.now.rules }
    {
        self.rules.as_slice()
    }

    /// A rule by its number, from 1. `None` where there is no such rule.
    pub fn rule(&self, number: u32) -> Option<&Rule>
        ensures { option_copied result ≡ rule_at self.now number }
    {
        if number == 0 {
            return None;
        }
        match self.rules.get(number as usize - 1) {
            Some(rule) => Some(&**rule),
            None => None,
        }
    }

    /// The label of a production by its number, from 1. `None` where there is no such production.
    pub fn label(&self, production: u32) -> Option<&Text>
        ensures { option_copied result ≡ label_at self.now production }
    {
        if production == 0 {
            return None;
        }
        self.labels.get(production as usize - 1)
    }
}
