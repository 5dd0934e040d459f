//! The builtin productions behind the declared ones.
ghost use Rattle.std.specs.Prelude.{◌≡◌, ◌+◌, ◌++◌, ◌≤◌, ◌^◌, IfOk, length, map};
ghost use Rattle.grammar_terms.specs.Builtins.{next_sentence as sentence_behind, next_group as group_behind, placed as placed_behind, operator_form as form_of, bracket_prods, builtin_prods};

use crate::builtin::{Builtin, OPERATORS, operator_form, parentheses};
use crate::copies::copy_prods;
use crate::production::Production;
use k_terms::{Many, Memory, Op, Text};
use production_reader::Form;
use std::alloc::Global;

/// A number so many behind another.
fn number_behind(number: u32, more: u32) -> Result<u32, Memory>
    ensures { IfOk result (λ sum. sum ≡ number + more) }
{
    number.checked_add(more).ok_or(Memory)
}

/// The first sentence behind those of productions.
pub fn next_sentence(prods: &[Production]) -> Result<u32, Memory>
    ensures { IfOk result (λ next. next ≡ sentence_behind prods.now) }
{
    let mut next: u32 = 0;
    for production in prods {
        next = next.max(number_behind(production.sentence, 1)?);
    }
    Ok(next)
}

/// The first group behind those of productions.
pub fn next_group(prods: &[Production]) -> Result<u32, Memory>
    ensures { IfOk result (λ next. next ≡ group_behind prods.now) }
{
    let mut next: u32 = 0;
    for production in prods {
        next = next.max(number_behind(production.group, 1)?);
    }
    Ok(next)
}

/// A builtin production behind productions up to a sentence and a group.
fn placed(sentence: u32, group: u32, builtin: Builtin) -> Result<Production, Memory>
    ensures { IfOk result (λ production. production ≡ placed_behind sentence group builtin) }
{
    Ok(Production {
        sort: builtin.sort,
        sentence: number_behind(sentence, builtin.sentence)?,
        group: number_behind(group, builtin.group)?,
        items: builtin.items,
        attrs: builtin.attrs,
        form: Form::Plain,
    })
}

/// Adds the productions of all operators.
fn add_operators(
    alloc: Global,
    sentence: u32,
    group: u32,
    ops: &[Op],
    prods: &mut Vec<Production>,
) -> Result<(), Memory>
    ensures { IfOk result (λ _. prods.new.items ≡ prods.old.items ++ map (λ op. placed_behind sentence group (form_of op)) ops.now) }
{
    for op in ops {
        prods.push(placed(sentence, group, operator_form(alloc, *op)?)?)?;
    }
    Ok(())
}

/// Adds the parentheses of each sort.
fn add_brackets(
    alloc: Global,
    sentence: u32,
    group: u32,
    names: &[Text],
    prods: &mut Vec<Production>,
) -> Result<(), Memory>
    requires { length names.now ≤ 2 ^ 32 }
    ensures { IfOk result (λ _. prods.new.items ≡ prods.old.items ++ bracket_prods sentence group (length names.now)) }
{
    for (sort, _) in names.iter().enumerate() {
        let builtin = parentheses(alloc, sort as u32)?;
        prods.push(placed(sentence, group, builtin)?)?;
    }
    Ok(())
}

/// Copies of declared productions, and behind them the builtin ones for sorts of these names.
pub(crate) fn rule_prods(
    alloc: Global,
    names: &[Text],
    declared: &[Production],
) -> Result<Many<Production>, Memory>
    requires { length names.now ≤ 2 ^ 32 }
    ensures { IfOk result (λ prods. prods ≡ declared.now ++ builtin_prods (sentence_behind declared.now) (group_behind declared.now) (length names.now)) }
{
    let sentence = next_sentence(declared)?;
    let group = next_group(declared)?;
    let mut prods = copy_prods(alloc, declared)?;
    add_operators(alloc, sentence, group, &OPERATORS, &mut prods)?;
    add_brackets(alloc, sentence, group, names, &mut prods)?;
    Ok(Many::from_vec(prods))
}
