//! The one reading of a content or a condition.
ghost use Rattle.std.specs.Prelude.{◌≡◌, ◌⊎◌, true, false, Some, IfOk, IfErr, IsSome};
ghost use Rattle.k_terms.specs.Sorts.{sort_bool};
ghost use Rattle.rule_contents.specs.declared.reading.ContentFault.TheVariants.{Memory as WantOfMemory};
ghost use Rattle.rule_contents.specs.Readings.{IsOnly, HasNone, IsFault, content_sort, whole_sort as sort_of_whole, IsContent, IsContentFault};

use crate::grammar::ContentGrammar;
use crate::numbers::sort_behind;
use grammar_terms::{Grammar, Readings, Shape, Word};
use k_terms::sort;
use rule_terms::Kind;
use span_table::all_readings;
use std::alloc::Global;

/// As what a content is read.
#[derive(Debug, Clone, Copy, PartialEq, Eq)]
pub enum Form {
    /// One side, or two.
    Sides,
    /// A side that becomes what an expression says.
    Made,
    /// An expression alone, in a cell that is new.
    Expression,
}

/// Why a content or a condition is none.
#[derive(Debug, Clone, Copy, PartialEq, Eq)]
pub enum ContentFault {
    /// It has no reading.
    NoReading,
    /// It has two different readings, or more.
    Ambiguous,
    /// Memory was wanting.
    Memory,
}

/// The one reading of words at a sort.
fn only_reading(
    alloc: Global,
    grammar: &Grammar,
    sort: u32,
    words: &[Word],
) -> Result<Shape, ContentFault>
    ensures ok { IfOk result (IsOnly grammar.now sort words.now) }
    ensures fault { IfErr result (λ fault. (fault ≡ WantOfMemory) ⊎ IsFault grammar.now sort words.now fault) }
{
    let Ok(readings) = all_readings(alloc, grammar, sort, words) else {
        return Err(ContentFault::Memory);
    };
    match readings {
        Readings::Zero => Err(ContentFault::NoReading),
        Readings::One(shape) => Ok(shape),
        Readings::Two(_, _) => Err(ContentFault::Ambiguous),
    }
}

/// The sort of the expressions that may be the whole of a content or of its right side.
fn whole_sort(kind: Kind) -> Option<u32>
    ensures { result ≡ sort_of_whole kind }
{
    match kind {
        Kind::Cells => None,
        Kind::Seq => Some(sort::K),
        Kind::Map => Some(sort::MAP),
        Kind::List => Some(sort::LIST),
        Kind::One(_) => None,
    }
}

/// The one reading of words as an expression of a sort, the whole content of a new cell.
fn read_expression(
    alloc: Global,
    grammar: &ContentGrammar,
    sort: u32,
    words: &[Word],
) -> Result<(Form, Shape), ContentFault>
    requires whole { sort_of_whole grammar.now.kind ≡ Some sort }
    requires none { HasNone grammar.now.grammar (content_sort grammar.now.grammar) words.now }
    ensures ok { IfOk result (λ read. IsContent grammar.now.grammar grammar.now.kind true words.now read.0 read.1) }
    ensures fault { IfErr result (λ fault. (fault ≡ WantOfMemory) ⊎ IsContentFault grammar.now.grammar grammar.now.kind true words.now fault) }
{
    match only_reading(alloc, &grammar.grammar, sort, words) {
        Ok(shape) => Ok((Form::Expression, shape)),
        Err(fault) => Err(fault),
    }
}

/// The one reading of words as a side that becomes what an expression says.
fn read_made(
    alloc: Global,
    grammar: &ContentGrammar,
    words: &[Word],
) -> Result<(Form, Shape), ContentFault>
    requires whole { IsSome (sort_of_whole grammar.now.kind) }
    requires none { HasNone grammar.now.grammar (content_sort grammar.now.grammar) words.now }
    ensures ok { IfOk result (λ read. IsContent grammar.now.grammar grammar.now.kind false words.now read.0 read.1) }
    ensures fault { IfErr result (λ fault. (fault ≡ WantOfMemory) ⊎ IsContentFault grammar.now.grammar grammar.now.kind false words.now fault) }
{
    let Ok(sort) = sort_behind(&grammar.grammar, 3) else {
        return Err(ContentFault::Memory);
    };
    match only_reading(alloc, &grammar.grammar, sort, words) {
        Ok(shape) => Ok((Form::Made, shape)),
        Err(fault) => Err(fault),
    }
}

/// The one reading of words that have none as sides.
fn read_other(
    alloc: Global,
    grammar: &ContentGrammar,
    is_new: bool,
    words: &[Word],
) -> Result<(Form, Shape), ContentFault>
    requires none { HasNone grammar.now.grammar (content_sort grammar.now.grammar) words.now }
    ensures ok { IfOk result (λ read. IsContent grammar.now.grammar grammar.now.kind is_new words.now read.0 read.1) }
    ensures fault { IfErr result (λ fault. (fault ≡ WantOfMemory) ⊎ IsContentFault grammar.now.grammar grammar.now.kind is_new words.now fault) }
{
    let Some(sort) = whole_sort(grammar.kind) else {
        return Err(ContentFault::NoReading);
    };
    if is_new {
        return read_expression(alloc, grammar, sort, words);
    }
    read_made(alloc, grammar, words)
}

/// The one reading of a content, and as what: as sides first; where it has no reading so, as one whose right side is an
/// expression; and in a cell that is new as an expression alone.
pub fn read_content(
    alloc: Global,
    grammar: &ContentGrammar,
    is_new: bool,
    words: &[Word],
) -> Result<(Form, Shape), ContentFault>
    ensures ok { IfOk result (λ read. IsContent grammar.now.grammar grammar.now.kind is_new words.now read.0 read.1) }
    ensures fault { IfErr result (λ fault. (fault ≡ WantOfMemory) ⊎ IsContentFault grammar.now.grammar grammar.now.kind is_new words.now fault) }
{
    let Ok(sort) = sort_behind(&grammar.grammar, 2) else {
        return Err(ContentFault::Memory);
    };
    match only_reading(alloc, &grammar.grammar, sort, words) {
        Ok(shape) => Ok((Form::Sides, shape)),
        Err(ContentFault::NoReading) => read_other(alloc, grammar, is_new, words),
        Err(fault) => Err(fault),
    }
}

/// The one reading of a condition, over the grammar for rules.
pub fn read_condition(alloc: Global, rules: &Grammar, words: &[Word]) -> Result<Shape, ContentFault>
    ensures ok { IfOk result (IsOnly rules.now sort_bool words.now) }
    ensures fault { IfErr result (λ fault. (fault ≡ WantOfMemory) ⊎ IsFault rules.now sort_bool words.now fault) }
{
    only_reading(alloc, rules, sort::BOOL, words)
}
