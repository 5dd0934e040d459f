ghost use Rattle.production_reader.specs.Meaning.{groups_of};
ghost use Rattle.std.specs.Prelude.{◌≡◌, ◌≤◌, MatchResult, false, length, map};
ghost use Rattle.production_reader.specs.Heads.{Begin, ends_group};
ghost use Rattle.production_reader.specs.Meaning.{prod_of};
ghost use Rattle.production_reader.specs.Next.{AreSome, Goes, IsGroup, had_after_prods, is_closed as closed, is_list_prod, signs_of_some};
ghost use Rattle.production_reader.specs.Reading.{IsReadAs, Stops};
ghost use Rattle.production_reader.specs.Written.{signs_of_group, signs_of_groups};
ghost use Rattle.production_reader.specs.Allowed.{AreGroups, EndsSentence, is_word_among, sentence_words};

use crate::prod::{Form, Prod};
use crate::production::read_production;
use crate::signs::is_mark;
use crate::source::Source;
use crate::stop::Stop;
use k_terms::Many;
use std::alloc::Global;

fn is_list(production: &Prod) -> bool
    ensures { result ≡ is_list_prod production.now }
{
    match &production.form {
        Form::Plain => false,
        Form::Prefix(_) => false,
        Form::UserList { separator: _ } => true,
    }
}

/// Whether a list production stands before.
fn is_closed(had: Option<bool>) -> bool
    ensures { result ≡ closed had }
{
    match had {
        Some(list) => list,
        None => false,
    }
}

/// What a sort has after these productions.
fn had_after(had: Option<bool>, productions: &[Prod]) -> Option<bool>
    ensures { result ≡ had_after_prods had productions.now }
{
    let mut now = had;
    for production in productions {
        now = Some(is_list(production));
    }
    now
}

/// Reads the productions of one group.
fn read_group(
    alloc: Global,
    source: &Source<'_>,
    from: usize,
    sort: &[u8],
    had: Option<bool>,
) -> Result<(Many<Prod>, usize), Stop>
    requires within { from ≤ length source.now }
    requires goes { Goes had }
    ensures { MatchResult result
        (λ found. IsReadAs (IsGroup sort.now had) signs_of_group (Begin ends_group) (map prod_of) source.now from found.0 found.1)
        (λ stop. Stops (IsGroup sort.now had) signs_of_group (Begin ends_group) source.now from stop) }
{
    let mut found = Many::new(alloc);
    let mut at = from;
    let mut now = had;
    'productions: loop {
        let (production, next) = match read_production(alloc, source, at, sort, now) {
            Ok(read) => read,
            Err(stop) => return Err(stop),
        };
        let last = is_list(&production);
        if let Err(_failed) = found.push(production) {
            return Err(Stop::Memory);
        }
        if last {
            return Ok((found, next));
        }
        if !is_mark(source, next, b'|') {
            return Ok((found, next));
        }
        now = Some(last);
        at = next + 1;
    }
}

/// Reads one group or more.
fn read_some(
    alloc: Global,
    source: &Source<'_>,
    from: usize,
    sort: &[u8],
    had: Option<bool>,
) -> Result<(Many<Many<Prod>>, usize), Stop>
    requires within { from ≤ length source.now }
    requires goes { Goes had }
    ensures { MatchResult result
        (λ found. IsReadAs (AreSome sort.now had) signs_of_some (Begin (is_word_among sentence_words)) groups_of source.now from found.0 found.1)
        (λ stop. Stops (AreSome sort.now had) signs_of_some (Begin (is_word_among sentence_words)) source.now from stop) }
{
    let mut found = Many::new(alloc);
    let mut at = from;
    let mut now = had;
    'groups: loop {
        let (group, next) = match read_group(alloc, source, at, sort, now) {
            Ok(read) => read,
            Err(stop) => return Err(stop),
        };
        let then = had_after(now, group.as_slice());
        if let Err(_failed) = found.push(group) {
            return Err(Stop::Memory);
        }
        if is_closed(then) {
            return Ok((found, next));
        }
        if !is_mark(source, next, b'>') {
            return Ok((found, next));
        }
        now = then;
        at = next + 1;
    }
}

/// Reads what follows the sort of a syntax sentence, from the token of this number on: nothing, or `::=` and groups of
/// productions. `had` says what the sort has before: no production, or some, and whether that is a list production.
/// Gives the groups and the number of the token that follows.
pub fn read_groups(
    alloc: Global,
    source: &Source<'_>,
    from: usize,
    sort: &[u8],
    had: Option<bool>,
) -> Result<(Many<Many<Prod>>, usize), Stop>
    requires { from ≤ length source.now }
    ensures { MatchResult result
        (λ found. IsReadAs (AreGroups sort.now had) signs_of_groups EndsSentence groups_of source.now from found.0 found.1)
        (λ stop. Stops (AreGroups sort.now had) signs_of_groups EndsSentence source.now from stop) }
{
    if is_closed(had) {
        return Ok((Many::new(alloc), from));
    }
    if !is_mark(source, from, b':') {
        return Ok((Many::new(alloc), from));
    }
    if !is_mark(source, from + 1, b':') {
        return Err(Stop::Expected { at: from + 1 });
    }
    if !is_mark(source, from + 1 + 1, b'=') {
        return Err(Stop::Expected { at: from + 1 + 1 });
    }
    match read_some(alloc, source, from + 1 + 1 + 1, sort, had) {
        Ok(found) => Ok(found),
        Err(stop) => Err(stop),
    }
}
