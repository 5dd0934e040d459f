//! The levels around the one that is read.
ghost use Rattle.std.specs.Prelude.{◌≡◌, ◌∷◌, [], OnOk, MatchOption};

use crate::level::Level;
use k_terms::Memory;
use std::alloc::Global;
use std::marker::Model;

/// Levels, of which the innermost can be taken out. Contracts see it first.
#[derive(Debug, Drop)]
pub(crate) struct Stack {
    levels: Vec<Level>,
}

impl Model for Stack {
    ghost use Rattle.std.specs.Prelude.{List, reverse};
    ghost use Rattle.std.specs.Coded.{codes};
    ghost use Rattle.rule_cells.specs.declared.level.Level.{Level};
    ghost use Rattle.rule_cells.specs.contracts.form.Item as item;

    ghost Value = { List Level };

    ghost coded = { Prim.hlevel (codes, item.the_row.coded) };

    ghost view = { λ stack. reverse stack.levels.items };
}

impl Stack {
    pub(crate) fn new(alloc: Global) -> Stack
        ensures { result ≡ [] }
    {
        Stack {
            levels: Vec::new(alloc),
        }
    }

    /// Puts a level inside all others.
    pub(crate) fn push(&mut self, level: Level) -> Result<(), Memory>
        ensures { OnOk result (self.new ≡ level ∷ self.old) }
    {
        self.levels.push(level)?;
        Ok(())
    }

    /// Takes the innermost level out.
    pub(crate) fn pop(&mut self) -> Option<Level>
        ensures { MatchOption result (self.old ≡ []) (λ level. self.old ≡ level ∷ self.new) }
    {
        self.levels.pop()
    }
}
