//! Rows that are made of others.
ghost use Rattle.std.specs.Prelude.{◌≡◌, ◌↔◌, IfOk, IsTrue};
ghost use Rattle.grammar_terms.specs.Reading.{Fits, item_sort as sort_of_item, may_stand as stands_by};
ghost use Rattle.span_rows.specs.declared.row.Key.TheVariants.{Front as FrontKey};
ghost use Rattle.span_rows.specs.Rows.{Adds, Stands, IsFitting, is_no_lone as no_lone, takes_class, key_class as class_of_key, place_class as class_of_place, Extends, Joins, Grows, IsJoin, IsMade};
ghost use Rattle.span_rows.specs.Slots.{IsSlot};

use crate::row::{Class, Held, Key, Row};
use crate::rows::add;
use crate::sign::joined_code;
use crate::slot::{Slot, slot_of};
use crate::steps::held_with;
use grammar_terms::{Grammar, WILD_PLACE};
use k_terms::{Memory, sort};
use std::alloc::Global;

/// A place of sort K has one item, which is of sort KItem.
fn item_sort(sort: u32) -> u32
    ensures { result ≡ sort_of_item sort }
{
    if sort == sort::K { sort::KITEM } else { sort }
}

/// Whether what is of a sort may stand at a place of another one.
fn fits(grammar: &Grammar, own: u32, sort: u32) -> bool
    ensures { IsTrue result ↔ Fits grammar.now own sort }
{
    if own == sort {
        return true;
    }
    grammar.sorts().below(own, item_sort(sort))
}

fn is_no_lone(class: Class) -> bool
    ensures { result ≡ no_lone class }
{
    match class {
        Class::Lone => false,
        Class::Wild => true,
        Class::Other => true,
    }
}

/// Whether a shape of a class may stand at a place of a sort.
fn takes(sort: u32, class: Class) -> bool
    ensures { result ≡ takes_class sort class }
{
    if item_sort(sort) == sort::KITEM {
        is_no_lone(class)
    } else {
        true
    }
}

/// Whether a production may stand at a place of another.
fn may_stand(grammar: &Grammar, place: Option<(u32, u32)>, prod: u32) -> bool
    ensures { IsTrue result ↔ stands_by grammar.now place prod }
{
    match place {
        Some((parent, count)) => grammar.permitted(parent, count, prod),
        None => true,
    }
}

fn is_fitting(
    grammar: &Grammar,
    place: Option<(u32, u32)>,
    sort: u32,
    prod: u32,
    class: Class,
) -> bool
    ensures { IsTrue result ↔ IsFitting grammar.now place sort prod class }
{
    let Some(production) = grammar.production(prod) else {
        return false;
    };
    if !takes(sort, class) {
        return false;
    }
    if !may_stand(grammar, place, prod) {
        return false;
    }
    fits(grammar, production.sort, sort)
}

/// Whether what a row says may stand at a place of a sort.
pub fn stands(grammar: &Grammar, place: Option<(u32, u32)>, sort: u32, key: &Key) -> bool
    ensures { IsTrue result ↔ Stands grammar.now place sort key.now }
{
    match *key {
        Key::Front(..) => false,
        Key::Whole(prod, class) => is_fitting(grammar, place, sort, prod, class),
        Key::Token(own) => fits(grammar, own, sort),
        Key::Wild => grammar.is_named(sort),
        Key::Place(number) => number == sort as u64,
        Key::Sequence => sort == sort::K,
    }
}

/// The class of a token that stands at a place that asks for one.
fn place_class(number: u64) -> Class
    ensures { result ≡ class_of_place number }
{
    if number == WILD_PLACE as u64 {
        Class::Wild
    } else {
        Class::Other
    }
}

/// The class of the shape that a row tells of.
fn key_class(key: &Key) -> Class
    ensures { result ≡ class_of_key key.now }
{
    match *key {
        Key::Front(..) => Class::Other,
        Key::Whole(_, class) => class,
        Key::Token(_) => Class::Other,
        Key::Wild => Class::Wild,
        Key::Place(number) => place_class(number),
        Key::Sequence => Class::Other,
    }
}

/// Adds the row that a front of a production makes with a child at its next item, where that may stand there.
fn join_child(
    alloc: Global,
    grammar: &Grammar,
    slot: &Slot,
    front: &Row,
    child: &Row,
    rows: &mut Vec<Row>,
) -> Result<(), Memory>
    requires { IsSlot grammar.now front.now.key slot.now }
    ensures { IfOk result (λ _. Adds (Extends grammar.now front.now child.now) rows.old.items rows.new.items) }
{
    if !stands(
        grammar,
        Some((slot.prod, slot.count)),
        slot.sort,
        &child.key,
    ) {
        return Ok(());
    }
    let held = held_with(slot.held, key_class(&child.key));
    let code = joined_code(alloc, front.code.as_slice(), child.code.as_slice())?;
    let key = Key::Front(slot.prod, slot.after, held);
    add(rows, Row { key, code })?;
    Ok(())
}

/// Adds the rows that a front makes with each of some children.
fn join_children(
    alloc: Global,
    grammar: &Grammar,
    slot: &Slot,
    front: &Row,
    children: &[Row],
    rows: &mut Vec<Row>,
) -> Result<(), Memory>
    requires { IsSlot grammar.now front.now.key slot.now }
    ensures { IfOk result (λ _. Adds (IsMade (Extends grammar.now front.now) children.now) rows.old.items rows.new.items) }
{
    for child in children {
        join_child(alloc, grammar, slot, front, child, rows)?;
    }
    Ok(())
}

/// The same of a front whose next item may be none.
fn join_items(
    alloc: Global,
    grammar: &Grammar,
    front: &Row,
    children: &[Row],
    rows: &mut Vec<Row>,
) -> Result<(), Memory>
    ensures { IfOk result (λ _. Adds (IsMade (Extends grammar.now front.now) children.now) rows.old.items rows.new.items) }
{
    let Some(slot) = slot_of(grammar, &front.key)? else {
        return Ok(());
    };
    join_children(alloc, grammar, &slot, front, children, rows)
}

/// Adds the row that a sequence, before a part, makes with an item.
fn join_part(
    alloc: Global,
    grammar: &Grammar,
    held: Held,
    front: &Row,
    child: &Row,
    rows: &mut Vec<Row>,
) -> Result<(), Memory>
    requires { front.now.key ≡ FrontKey 0 0 held }
    ensures { IfOk result (λ _. Adds (Joins grammar.now front.now child.now) rows.old.items rows.new.items) }
{
    if !stands(grammar, None, sort::KITEM, &child.key) {
        return Ok(());
    }
    let code = joined_code(alloc, front.code.as_slice(), child.code.as_slice())?;
    let key = Key::Front(0, 1, held_with(held, key_class(&child.key)));
    add(rows, Row { key, code })?;
    Ok(())
}

/// Adds the rows that a front makes with some children, where it is a sequence before a part.
fn join_parts(
    alloc: Global,
    grammar: &Grammar,
    front: &Row,
    children: &[Row],
    rows: &mut Vec<Row>,
) -> Result<(), Memory>
    ensures { IfOk result (λ _. Adds (IsMade (Joins grammar.now front.now) children.now) rows.old.items rows.new.items) }
{
    let Key::Front(0, 0, held) = front.key else {
        return Ok(());
    };
    for child in children {
        join_part(alloc, grammar, held, front, child, rows)?;
    }
    Ok(())
}

/// Adds the rows that a front makes with some children.
fn join_front(
    alloc: Global,
    grammar: &Grammar,
    front: &Row,
    children: &[Row],
    rows: &mut Vec<Row>,
) -> Result<(), Memory>
    ensures { IfOk result (λ _. Adds (IsMade (Grows grammar.now front.now) children.now) rows.old.items rows.new.items) }
{
    join_items(alloc, grammar, front, children, rows)?;
    join_parts(alloc, grammar, front, children, rows)?;
    Ok(())
}

/// Adds the rows that each of some fronts makes with each of some children.
pub fn join(
    alloc: Global,
    grammar: &Grammar,
    fronts: &[Row],
    children: &[Row],
    rows: &mut Vec<Row>,
) -> Result<(), Memory>
    ensures { IfOk result (λ _. Adds (IsJoin grammar.now fronts.now children.now) rows.old.items rows.new.items) }
{
    if children.is_empty() {
        return Ok(());
    }
    for front in fronts {
        join_front(alloc, grammar, front, children, rows)?;
    }
    Ok(())
}
