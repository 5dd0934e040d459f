//! How the contents and the condition of a rule are read.
ghost use Rattle.std.specs.Prelude.{◌≡◌, ◌⊎◌, ◌+◌, IfOk, IfErr, option_map, Some, None};
ghost use Rattle.rule_drafts.specs.Cells.{kind_of as kind_in};
ghost use Rattle.rule_reader.specs.declared.refusal.RuleFault.TheVariants.{Memory as WantOfMemory};
ghost use Rattle.rule_reader.specs.Readings.{IsReadAs, AreReadAs, IsUnreadAs, IsFirstUnread, IsConditionAs, IsBadCondition, IsNoCondition, IsReadForm, IsUnreadForm};

use crate::contents::{Content, contents_of};
use crate::grammar::RuleGrammar;
use crate::places::{between, condition_place, place_of};
use crate::refusal::RuleFault;
use crate::told::content_fault;
use grammar_terms::Word;
use k_terms::{Many, Memory};
use rule_cells::RuleForm;
use rule_contents::{operator_place, read_condition};
use rule_drafts::{Condition, Reading, RuleReading};
use rule_terms::{CellShape, Kind};
use rule_tokens::RuleToken;
use std::alloc::Global;

/// What a declared cell contains.
fn kind_of(cells: &[CellShape], cell: u32) -> Kind
    ensures { result ≡ kind_in cells.now cell }
{
    match cells.get(cell as usize) {
        Some(shape) => shape.kind,
        None => Kind::Cells,
    }
}

/// A place among the tokens of a content as one among those of the rule.
fn in_rule(first: usize, place: Option<usize>) -> Result<Option<usize>, Memory>
    ensures { IfOk result (λ found. found ≡ option_map (λ at. first + at) place) }
{
    let Some(at) = place else {
        return Ok(None);
    };
    let Some(sum) = first.checked_add(at) else {
        return Err(Memory);
    };
    Ok(Some(sum))
}

/// The reading of a content.
fn read_one(
    alloc: Global,
    grammar: &RuleGrammar<'_>,
    cells: &[CellShape],
    tokens: &[RuleToken],
    words: &[Word],
    behind: usize,
    content: &Content,
) -> Result<Reading, RuleFault>
    ensures ok { IfOk result (IsReadAs grammar.now cells.now words.now content.now) }
    ensures fault { IfErr result (λ fault. (fault ≡ WantOfMemory) ⊎ IsUnreadAs grammar.now cells.now tokens.now words.now behind content.now fault) }
{
    let kind = kind_of(cells, content.cell);
    let part = between(words, content.first, content.past);
    let (form, shape) = match grammar.read_content(alloc, kind, content.is_new, part) {
        Ok(read) => read,
        Err(fault) => {
            return Err(content_fault(place_of(tokens, behind, content.first), fault));
        }
    };
    let place = operator_place(alloc, grammar.rules, kind, form, part, &shape)?;
    let operator = in_rule(content.first, place)?;
    Ok(Reading {
        first: content.first,
        form,
        shape,
        operator,
    })
}

/// The readings of contents.
fn read_contents(
    alloc: Global,
    grammar: &RuleGrammar<'_>,
    cells: &[CellShape],
    tokens: &[RuleToken],
    words: &[Word],
    behind: usize,
    contents: &[Content],
) -> Result<Many<Reading>, RuleFault>
    ensures ok { IfOk result (AreReadAs grammar.now cells.now words.now contents.now) }
    ensures fault { IfErr result (λ fault. (fault ≡ WantOfMemory) ⊎ IsFirstUnread grammar.now cells.now tokens.now words.now behind contents.now fault) }
{
    let mut readings = Vec::new(alloc);
    for content in contents {
        match read_one(alloc, grammar, cells, tokens, words, behind, content) {
            Ok(reading) => readings.push(reading)?,
            Err(fault) => return Err(fault),
        }
    }
    Ok(Many::from_vec(readings))
}

/// The reading of a condition with the tokens from one up to another.
fn read_range(
    alloc: Global,
    grammar: &RuleGrammar<'_>,
    tokens: &[RuleToken],
    words: &[Word],
    range: (usize, usize),
) -> Result<Condition, RuleFault>
    ensures ok { IfOk result (λ condition. IsConditionAs grammar.now words.now (Some range) (Some condition)) }
    ensures fault { IfErr result (λ fault. (fault ≡ WantOfMemory) ⊎ IsBadCondition grammar.now tokens.now words.now range fault) }
{
    let (first, past) = range;
    match read_condition(alloc, grammar.rules, between(words, first, past)) {
        Ok(shape) => Ok(Condition { first, shape }),
        Err(fault) => Err(content_fault(condition_place(tokens, first), fault)),
    }
}

/// The reading of the condition, where there is one.
fn read_range_if(
    alloc: Global,
    grammar: &RuleGrammar<'_>,
    tokens: &[RuleToken],
    words: &[Word],
    range: Option<(usize, usize)>,
) -> Result<Option<Condition>, RuleFault>
    ensures ok { IfOk result (IsConditionAs grammar.now words.now range) }
    ensures fault { IfErr result (λ fault. (fault ≡ WantOfMemory) ⊎ IsNoCondition grammar.now tokens.now words.now range fault) }
{
    let Some(range) = range else {
        return Ok(None);
    };
    match read_range(alloc, grammar, tokens, words, range) {
        Ok(condition) => Ok(Some(condition)),
        Err(fault) => Err(fault),
    }
}

/// The readings of a rule of a form whose word `rule` stands at a place.
pub(crate) fn read_parts(
    alloc: Global,
    grammar: &RuleGrammar<'_>,
    cells: &[CellShape],
    tokens: &[RuleToken],
    words: &[Word],
    behind: usize,
    at: usize,
    form: RuleForm,
) -> Result<RuleReading, RuleFault>
    ensures ok { IfOk result (IsReadForm grammar.now cells.now words.now at form) }
    ensures fault { IfErr result (λ fault. (fault ≡ WantOfMemory) ⊎ IsUnreadForm grammar.now cells.now tokens.now words.now behind form fault) }
{
    let RuleForm { body, condition } = form;
    let places = contents_of(alloc, cells, &body)?;
    let contents = match read_contents(alloc, grammar, cells, tokens, words, behind, &places) {
        Ok(contents) => contents,
        Err(fault) => return Err(fault),
    };
    let condition = match read_range_if(alloc, grammar, tokens, words, condition) {
        Ok(condition) => condition,
        Err(fault) => return Err(fault),
    };
    Ok(RuleReading {
        at,
        body,
        contents,
        condition,
    })
}
