//! The draft of a rule.
ghost use Rattle.std.specs.Prelude.{◌≡◌, ◌++◌, None, IfOk, IfErr, MatchResult};
ghost use Rattle.std.specs.List.{flat_map};
ghost use Rattle.rule_drafts.specs.Cells.{body_events, event_faults};
ghost use Rattle.rule_drafts.specs.Drafts.{condition_occurrences, when_of, stray_fault, found_by, unbound_of, draft_by, HasNone, IsFaultOf, AreVariables, IsDraftFaultBy, IsDraft, IsDraftFault};

use crate::cells::forest;
use crate::contents::{add_all_faults, add_all_occurrences};
use crate::events::events_of_body;
use crate::fault::DraftFault;
use crate::reading::{Condition, RuleReading};
use crate::variables::{add_strays, first_fault, first_unbound, name_of, sorts_of, variables};
use grammar_terms::Word;
use k_terms::{Many, Memory, sort};
use rule_parts::{Leaf, Occurrence, Productions, add_term, leaves_from, pattern_of, read_leaves};
use rule_terms::{CellShape, Cond, Draft, Origin};
use rule_tokens::RuleToken;
use std::alloc::Global;

/// Adds the variables of the condition.
fn add_condition(
    grammar: &Productions,
    leaves: &[Leaf],
    condition: &Option<Condition>,
    found: &mut Vec<Occurrence>,
) -> Result<(), Memory>
    ensures { IfOk result (λ _. found.new.items ≡ found.old.items ++ condition_occurrences grammar.now leaves.now condition.now) }
{
    match condition {
        Some(condition) => add_term(
            &condition.shape,
            grammar,
            leaves_from(leaves, condition.first),
            false,
            sort::BOOL,
            false,
            found,
        ),
        None => Ok(()),
    }
}

/// The condition.
fn condition_of(
    alloc: Global,
    grammar: &Productions,
    leaves: &[Leaf],
    vars: &[Occurrence],
    condition: &Option<Condition>,
) -> Result<Many<Cond>, Memory>
    ensures { IfOk result (λ when. when ≡ when_of grammar.now leaves.now vars.now condition.now) }
{
    let mut when = Vec::new(alloc);
    if let Some(condition) = condition {
        let leaves = leaves_from(leaves, condition.first);
        let pattern = pattern_of(alloc, &condition.shape, grammar, leaves, vars, sort::BOOL)?;
        when.push(Cond::Holds(pattern))?;
    }
    Ok(Many::from_vec(when))
}

/// The occurrences of variables, in the order of the text.
fn occurrences(
    alloc: Global,
    k: u32,
    grammar: &Productions,
    leaves: &[Leaf],
    cells: &[CellShape],
    rule: &RuleReading,
) -> Result<Vec<Occurrence>, Memory>
    ensures { IfOk result (λ found. found.items ≡ found_by k grammar.now leaves.now cells.now rule.now) }
{
    let events = events_of_body(alloc, k, &rule.body)?;
    let mut found = Vec::new(alloc);
    let readings = rule.contents.as_slice();
    add_all_occurrences(alloc, grammar, leaves, cells, readings, &events, &mut found)?;
    add_condition(grammar, leaves, &rule.condition, &mut found)?;
    Ok(found)
}

/// The first tokens of all that has no form of a rule.
fn faults(
    alloc: Global,
    k: u32,
    grammar: &Productions,
    leaves: &[Leaf],
    cells: &[CellShape],
    rule: &RuleReading,
    found: &[Occurrence],
    vars: &[Occurrence],
) -> Result<Vec<usize>, Memory>
    ensures { IfOk result (λ faults. faults.items
        ≡ flat_map stray_fault found.now
        ++ flat_map (event_faults grammar.now leaves.now cells.now rule.now.contents vars.now) (body_events k rule.now.body)) }
{
    let events = events_of_body(alloc, k, &rule.body)?;
    let mut faults = Vec::new(alloc);
    add_strays(found, &mut faults)?;
    let readings = rule.contents.as_slice();
    add_all_faults(
        alloc,
        grammar,
        leaves,
        cells,
        readings,
        vars,
        &events,
        &mut faults,
    )?;
    Ok(faults)
}

/// Tells the first fault of these, or else the first variable that does not stand on the left side.
fn refuse(tokens: &[RuleToken], found: &[Occurrence], faults: &[usize]) -> Result<(), DraftFault>
    ensures { MatchResult result (λ _. HasNone faults.now × (unbound_of found.now ≡ None)) (IsFaultOf tokens.now found.now faults.now) }
{
    if let Some(token) = first_fault(faults) {
        return Err(DraftFault::PatternForm { token });
    }
    if let Some(occurrence) = first_unbound(found) {
        return Err(DraftFault::NotBoundLeft {
            var: name_of(tokens, occurrence),
        });
    }
    Ok(())
}

/// The draft of a rule whose variables are these.
fn draft_of(
    alloc: Global,
    k: u32,
    grammar: &Productions,
    leaves: &[Leaf],
    cells: &[CellShape],
    tokens: &[RuleToken],
    rule: &RuleReading,
    vars: &[Occurrence],
) -> Result<Draft, Memory>
    ensures { IfOk result (λ draft. draft
        ≡ draft_by k grammar.now leaves.now cells.now tokens.now rule.now vars.now) }
{
    let readings = rule.contents.as_slice();
    let body = &rule.body;
    Ok(Draft {
        origin: Origin::Written { at: rule.at },
        vars: sorts_of(alloc, vars)?,
        left: forest(
            alloc, k, body, grammar, leaves, cells, readings, vars, tokens, true,
        )?,
        right: forest(
            alloc, k, body, grammar, leaves, cells, readings, vars, tokens, false,
        )?,
        when: condition_of(alloc, grammar, leaves, vars, &rule.condition)?,
    })
}

/// The variables of a rule, or why there is no draft.
fn checked_variables(
    alloc: Global,
    k: u32,
    grammar: &Productions,
    leaves: &[Leaf],
    cells: &[CellShape],
    tokens: &[RuleToken],
    rule: &RuleReading,
) -> Result<Vec<Occurrence>, DraftFault>
    ensures { MatchResult result
        (λ vars. AreVariables k grammar.now leaves.now cells.now rule.now vars.items)
        (IsDraftFaultBy k grammar.now leaves.now cells.now tokens.now rule.now) }
{
    let found = occurrences(alloc, k, grammar, leaves, cells, rule)?;
    let vars = variables(alloc, &found)?;
    let faults = faults(alloc, k, grammar, leaves, cells, rule, &found, &vars)?;
    match refuse(tokens, &found, &faults) {
        Ok(()) => Ok(vars),
        Err(fault) => Err(fault),
    }
}

/// The draft of a rule from the readings of its contents: `cells` are the declared cells, `k` is the number of the cell `k`,
/// `tokens` are those of the rule's text and `words` what each of them is in a content.
pub fn read_draft(
    alloc: Global,
    k: u32,
    grammar: &Productions,
    cells: &[CellShape],
    tokens: &[RuleToken],
    words: &[Word],
    rule: &RuleReading,
) -> Result<Draft, DraftFault>
    ensures ok { IfOk result (IsDraft k grammar.now cells.now tokens.now words.now rule.now) }
    ensures fault { IfErr result (IsDraftFault k grammar.now cells.now tokens.now words.now rule.now) }
{
    let leaves = read_leaves(alloc, tokens, words)?;
    match checked_variables(alloc, k, grammar, &leaves, cells, tokens, rule) {
        Ok(vars) => Ok(draft_of(alloc, k, grammar, &leaves, cells, tokens, rule, &vars)?),
        Err(fault) => Err(fault),
    }
}
