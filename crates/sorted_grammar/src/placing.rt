//! The productions of sentences in their order.
ghost use Rattle.std.specs.Prelude.{◌≡◌, ◌+◌, ◌++◌, length, IfOk};
ghost use Rattle.sorted_grammar.specs.Placing.{placed_in_group, placed_in_groups, placed_in_sentence, groups_of, placed_of};

use file_reader::Sentence;
use k_terms::{Many, Memory};
use production_reader::Prod;
use std::alloc::Global;
use std::marker::Model;

/// A production with its sort, the place of its sentence among the sentences, and that of its group among all groups.
#[derive(Drop)]
pub struct Placed<'a> {
    pub sort: &'a [u8],
    pub sentence: u32,
    pub group: u32,
    pub prod: &'a Prod,
}

impl<'a> Model for Placed<'a> {
    ghost use Rattle.sorted_grammar.specs.Placing.{PlacedProd};

    ghost Value = { PlacedProd };

    ghost view = { λ placed. record { sort = placed.sort.now; sentence = placed.sentence; group = placed.group; prod = placed.prod.now } };
}

fn add_group<'a>(
    placed: &mut Vec<Placed<'a>>,
    sort: &'a [u8],
    sentence: u32,
    group: u32,
    prods: &'a [Prod],
) -> Result<(), Memory>
    ensures { IfOk result (λ _. placed.new.items ≡ placed.old.items ++ placed_in_group sort.now sentence group prods.now) }
{
    for prod in prods {
        placed.push(Placed {
            sort,
            sentence,
            group,
            prod,
        })?;
    }
    Ok(())
}

/// Adds the productions of groups that are counted from `first`, and says how the next group is counted.
fn add_groups<'a>(
    placed: &mut Vec<Placed<'a>>,
    sort: &'a [u8],
    sentence: u32,
    first: u32,
    groups: &'a [Many<Prod>],
) -> Result<u32, Memory>
    ensures placed { IfOk result (λ _. placed.new.items ≡ placed.old.items ++ placed_in_groups sort.now sentence first groups.now) }
    ensures next { IfOk result (λ next. next ≡ first + length groups.now) }
{
    let mut group = first;
    for prods in groups {
        add_group(placed, sort, sentence, group, prods.as_slice())?;
        group = next_number(group)?;
    }
    Ok(group)
}

/// The next number; where there is none, so many things find no memory.
fn next_number(number: u32) -> Result<u32, Memory>
    ensures { IfOk result (λ next. next ≡ number + 1) }
{
    match number.checked_add(1) {
        Some(next) => Ok(next),
        None => Err(Memory),
    }
}

/// Adds the productions of a sentence, whose groups are counted from `first`, and says how the next group is counted.
fn add_sentence<'a>(
    placed: &mut Vec<Placed<'a>>,
    place: u32,
    first: u32,
    sentence: &'a Sentence,
) -> Result<u32, Memory>
    ensures placed { IfOk result (λ _. placed.new.items ≡ placed.old.items ++ placed_in_sentence place first sentence.now) }
    ensures next { IfOk result (λ next. next ≡ first + length (groups_of sentence.now)) }
{
    match sentence {
        Sentence::Syntax { sort, groups } => {
            add_groups(placed, sort.as_slice(), place, first, groups.as_slice())
        }
        Sentence::Config { .. } | Sentence::Rule { .. } => Ok(first),
    }
}

/// The productions of sentences.
pub fn place_all(alloc: Global, sentences: &[Sentence]) -> Result<Vec<Placed<'_>>, Memory>
    ensures { IfOk result (λ placed. placed.items ≡ placed_of sentences.now) }
{
    let mut placed = Vec::new(alloc);
    let mut place = 0;
    let mut group = 0;
    for sentence in sentences {
        group = add_sentence(&mut placed, place, group, sentence)?;
        place = next_number(place)?;
    }
    Ok(placed)
}
