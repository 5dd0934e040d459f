//! Marks before the terms of operators: the productions that read them, and words with one.
ghost use Rattle.std.specs.Prelude.{◌≡◌, ◌<◌, ◌+◌, ◌∷◌, [], ◌++◌, IfOk, length};
ghost use Rattle.grammar_terms.specs.declared.production.Part.TheVariants.{Sort as SortPart};
ghost use Rattle.rule_contents.specs.Operators.{mark_word as word_of_mark, marked_at, marked as with_mark, first_attrs as attrs_of_first, first_of as first_production, marked_by, marked_prods as prods_with_marks, with_marks};

use crate::grammar::content_grammar;
use crate::numbers::sort_behind;
use grammar_terms::{Grammar, Part, Production, Word, WordKind, copy_attrs, copy_part};
use k_terms::{Many, Memory, copy, copy_text};
use production_reader::{Attrs, Form};
use rule_terms::Kind;
use std::alloc::Global;

/// Adds copies of items.
fn add_items(alloc: Global, items: &[Part], copies: &mut Vec<Part>) -> Result<(), Memory>
    ensures { IfOk result (λ _. copies.new.items ≡ copies.old.items ++ items.now) }
{
    for item in items {
        copies.push(copy_part(alloc, item)?)?;
    }
    Ok(())
}

/// The production of an operator with the mark before items.
fn marked(alloc: Global, operator: &Production, items: Vec<Part>) -> Result<Production, Memory>
    ensures { IfOk result (λ it. it ≡ with_mark operator.now items.items) }
{
    let mut behind = Vec::new(alloc);
    behind.push(Part::Terminal(Many::new(alloc)))?;
    add_items(alloc, &items, &mut behind)?;
    Ok(Production {
        sort: operator.sort,
        sentence: operator.sentence,
        group: operator.group,
        items: Many::from_vec(behind),
        attrs: copy_attrs(alloc, &operator.attrs)?,
        form: Form::Plain,
    })
}

/// The attributes of the production that reads what an operator begins with.
fn first_attrs(alloc: Global, attrs: &Attrs) -> Result<Attrs, Memory>
    ensures { IfOk result (λ it. it ≡ attrs_of_first attrs.now) }
{
    let all = copy_attrs(alloc, attrs)?;
    Ok(Attrs {
        left: false,
        right: all.right,
        non_assoc: all.non_assoc,
        bracket: all.bracket,
        strict: all.strict,
        seqstrict: true,
    })
}

/// The production that reads what an operator begins with, of a sort of its own.
fn first_of(alloc: Global, own: u32, operator: &Production, sort: u32) -> Result<Production, Memory>
    ensures { IfOk result (λ it. it ≡ first_production own operator.now sort) }
{
    let mut items = Vec::with_capacity(alloc, 1)?;
    items.push(Part::Sort(sort))?;
    Ok(Production {
        sort: own,
        sentence: operator.sentence,
        group: operator.group,
        items: Many::from_vec(items),
        attrs: first_attrs(alloc, &operator.attrs)?,
        form: Form::Plain,
    })
}

/// Adds the production of an operator that begins with a sort, and the one that reads what is of that sort.
fn add_after_sort(
    alloc: Global,
    own: u32,
    operator: &Production,
    sort: u32,
    rest: &[Part],
    prods: &mut Vec<Production>,
) -> Result<(), Memory>
    ensures { IfOk result (λ _. prods.new.items ≡ prods.old.items ++ (with_mark operator.now (SortPart own ∷ rest.now) ∷ first_production own operator.now sort ∷ [])) }
{
    let mut items = Vec::new(alloc);
    items.push(Part::Sort(own))?;
    add_items(alloc, rest, &mut items)?;
    let first = first_of(alloc, own, operator, sort)?;
    prods.push(marked(alloc, operator, items)?)?;
    prods.push(first)?;
    Ok(())
}

/// Adds the production of an operator that begins with no sort.
fn add_alike(
    alloc: Global,
    operator: &Production,
    prods: &mut Vec<Production>,
) -> Result<(), Memory>
    ensures { IfOk result (λ _. prods.new.items ≡ prods.old.items ++ with_mark operator.now operator.now.items ∷ []) }
{
    let mut items = Vec::new(alloc);
    add_items(alloc, operator.items.as_slice(), &mut items)?;
    prods.push(marked(alloc, operator, items)?)?;
    Ok(())
}

/// Adds the productions that read a marked term of an operator.
fn add_marked(
    alloc: Global,
    own: u32,
    operator: &Production,
    prods: &mut Vec<Production>,
) -> Result<(), Memory>
    ensures { IfOk result (λ _. prods.new.items ≡ prods.old.items ++ marked_by own operator.now operator.now.items) }
{
    let Some((first, rest)) = operator.items.as_slice().split_first() else {
        add_alike(alloc, operator, prods)?;
        return Ok(());
    };
    match first {
        Part::Terminal(_) => {
            add_alike(alloc, operator, prods)?;
            Ok(())
        }
        Part::Sort(sort) => {
            add_after_sort(alloc, own, operator, *sort, rest, prods)?;
            Ok(())
        }
    }
}

fn next_sort(sort: u32) -> Result<u32, Memory>
    ensures { IfOk result (λ next. next ≡ sort + 1) }
{
    sort.checked_add(1).ok_or(Memory)
}

/// The productions that read marked terms of operators, with sorts of their own from a number on.
fn marked_prods(
    alloc: Global,
    own: u32,
    operators: &[Production],
) -> Result<Vec<Production>, Memory>
    ensures { IfOk result (λ prods. prods.items ≡ prods_with_marks own operators.now) }
{
    let mut prods = Vec::new(alloc);
    let mut sort = own;
    for operator in operators {
        add_marked(alloc, sort, operator, &mut prods)?;
        sort = next_sort(sort)?;
    }
    Ok(prods)
}

/// The grammar of contents of a kind in which operators may be marked.
pub(crate) fn marked_grammar(alloc: Global, rules: &Grammar, kind: Kind) -> Result<Grammar, Memory>
    ensures { IfOk result (λ grammar. grammar ≡ with_marks rules.now kind) }
{
    let own = sort_behind(rules, 5)?;
    let prods = marked_prods(alloc, own, rules.operator_prods())?;
    content_grammar(alloc, rules, kind)?.with_more(alloc, &prods)
}

fn copy_kind(alloc: Global, kind: &WordKind) -> Result<WordKind, Memory>
    ensures { IfOk result (λ it. it ≡ kind.now) }
{
    Ok(match kind {
        WordKind::Terminal(text) => WordKind::Terminal(copy_text(alloc, text)?),
        WordKind::Literal(value) => WordKind::Literal(copy(alloc, value)?),
        WordKind::Variable => WordKind::Variable,
        WordKind::Wild => WordKind::Wild,
        WordKind::EmptyList => WordKind::EmptyList,
    })
}

/// Adds copies of words.
fn add_words(alloc: Global, words: &[Word], copies: &mut Vec<Word>) -> Result<(), Memory>
    ensures { IfOk result (λ _. copies.new.items ≡ copies.old.items ++ words.now) }
{
    for word in words {
        copies.push(Word {
            kind: copy_kind(alloc, &word.kind)?,
            sort: word.sort,
            start: word.start,
            end: word.end,
        })?;
    }
    Ok(())
}

fn mark_word(alloc: Global) -> Word
    ensures { result ≡ word_of_mark }
{
    Word {
        kind: WordKind::Terminal(Many::new(alloc)),
        sort: 0,
        start: 0,
        end: 0,
    }
}

/// Words with the mark before the one at a place.
pub(crate) fn marked_words(alloc: Global, words: &[Word], at: usize) -> Result<Vec<Word>, Memory>
    requires { at < length words.now }
    ensures { IfOk result (λ it. it.items ≡ marked_at at words.now) }
{
    let (before, behind) = words.split_at(at);
    let mut marked = Vec::with_capacity(alloc, words.len())?;
    add_words(alloc, before, &mut marked)?;
    marked.push(mark_word(alloc))?;
    add_words(alloc, behind, &mut marked)?;
    Ok(marked)
}
