//! How a production goes on behind its first items.
ghost use Rattle.std.specs.Prelude.{◌≡◌, ◌+◌, IfOk, option_copied};
ghost use Rattle.span_rows.specs.Steps.{held_with as held_after, is_nothing as nothing_held, class_of as class_held, list_of as list_held, part_sort, part_text, sort_wanted as next_sort, text_wanted as next_text, separator_wanted as next_separator, count_after as next_count, count_in_list as next_in_list, list_class as class_of_list, plain_class as class_of_plain, whole_class as class_of_whole, is_read as reads};

use crate::row::{Class, Held};
use grammar_terms::{Part, Production, lone_sort, step_from};
use k_terms::{Memory, Text};
use production_reader::Form;

/// What is held with one shape more, of a class.
pub(crate) fn held_with(held: Held, class: Class) -> Held
    ensures { result ≡ held_after held class }
{
    match held {
        Held::Nothing => Held::One(class),
        Held::One(_) => Held::More,
        Held::More => Held::More,
    }
}

pub(crate) fn is_nothing(held: Held) -> bool
    ensures { result ≡ nothing_held held }
{
    match held {
        Held::Nothing => true,
        Held::One(_) => false,
        Held::More => false,
    }
}

/// The class of the one shape that is held.
fn class_of(held: Held) -> Option<Class>
    ensures { result ≡ class_held held }
{
    match held {
        Held::Nothing => None,
        Held::One(class) => Some(class),
        Held::More => None,
    }
}

/// The class of a list of what is held, which is none of a variable without a sort alone.
fn list_of(held: Held) -> Option<Class>
    ensures { result ≡ list_held held }
{
    match held {
        Held::Nothing => Some(Class::Other),
        Held::One(Class::Lone) => Some(Class::Lone),
        Held::One(Class::Wild) => None,
        Held::One(Class::Other) => Some(Class::Lone),
        Held::More => Some(Class::Other),
    }
}

fn sort_of(part: Option<&Part>) -> Option<u32>
    ensures { result ≡ part_sort (option_copied part.entry) }
{
    match part {
        Some(Part::Sort(sort)) => Some(*sort),
        Some(Part::Terminal(_)) => None,
        None => None,
    }
}

fn text_of(part: Option<&Part>) -> Option<&Text>
    ensures { option_copied result ≡ part_text (option_copied part.entry) }
{
    match part {
        Some(Part::Sort(_)) => None,
        Some(Part::Terminal(text)) => Some(text),
        None => None,
    }
}

/// The separator of a list, where it is to be read next.
fn separator_wanted(separator: &Text, count: u32) -> Option<&Text>
    ensures { option_copied result ≡ next_separator separator.now count }
{
    if separator.is_empty() || count == 0 {
        None
    } else {
        Some(separator)
    }
}

/// The sort that is to be read next.
pub(crate) fn sort_wanted(production: &Production, count: u32) -> Option<u32>
    ensures { result ≡ next_sort production.now count }
{
    match &production.form {
        Form::Plain => sort_of(production.items.get(count as usize)),
        Form::Prefix(_) => sort_of(production.items.get(count as usize)),
        Form::UserList { .. } => {
            if count == 0 {
                lone_sort(production.items.as_slice())
            } else {
                None
            }
        }
    }
}

/// The terminal that is to be read next.
pub(crate) fn text_wanted(production: &Production, count: u32) -> Option<&Text>
    ensures { option_copied result ≡ next_text production.now count }
{
    match &production.form {
        Form::Plain => text_of(production.items.get(count as usize)),
        Form::Prefix(_) => text_of(production.items.get(count as usize)),
        Form::UserList { separator } => separator_wanted(separator, count),
    }
}

/// How many items of a list production were read last, when one more is read.
fn count_in_list(separator: &Text, count: u32) -> u32
    ensures { result ≡ next_in_list separator.now count }
{
    if separator.is_empty() {
        return 0;
    }
    if count == 0 { 1 } else { 0 }
}

/// The next number.
pub fn one_more(number: u32) -> Result<u32, Memory>
    ensures { IfOk result (λ next. next ≡ number + 1) }
{
    number.checked_add(1).ok_or(Memory)
}

/// How many items were read when one more is read.
pub(crate) fn count_after(production: &Production, count: u32) -> Result<u32, Memory>
    ensures { IfOk result (λ after. after ≡ next_count production.now count) }
{
    match &production.form {
        Form::Plain => one_more(count),
        Form::Prefix(_) => one_more(count),
        Form::UserList { separator } => Ok(count_in_list(separator, count)),
    }
}

fn list_class(separator: &Text, count: u32, held: Held) -> Option<Class>
    ensures { result ≡ class_of_list separator.now count held }
{
    if separator.is_empty() {
        return list_of(held);
    }
    match held {
        Held::Nothing => list_of(held),
        Held::One(_) => { if count == 0 { None } else { list_of(held) } }
        Held::More => (count != 0).then_some(Class::Other),
    }
}

fn plain_class(production: &Production, count: u32, held: Held) -> Option<Class>
    ensures { result ≡ class_of_plain production.now count held }
{
    if count as usize != production.items.len() {
        return None;
    }
    if production.attrs.bracket {
        class_of(held)
    } else {
        Some(Class::Other)
    }
}

/// Where a front of a production is all of it, the class of its shape.
pub(crate) fn whole_class(production: &Production, count: u32, held: Held) -> Option<Class>
    ensures { result ≡ class_of_whole production.now count held }
{
    match &production.form {
        Form::Plain => plain_class(production, count, held),
        Form::Prefix(_) => plain_class(production, count, held),
        Form::UserList { separator } => list_class(separator, count, held),
    }
}

/// Whether a production reads tokens: it is no subsort step, and a list production has a sort of elements.
pub fn is_read(production: &Production) -> bool
    ensures { result ≡ reads production.now }
{
    match &production.form {
        Form::Plain => step_from(production).is_none(),
        Form::Prefix(_) => step_from(production).is_none(),
        Form::UserList { .. } => lone_sort(production.items.as_slice()).is_some(),
    }
}
