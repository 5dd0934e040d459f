ghost use Rattle.std.specs.Prelude.{◌≡◌, ◌++◌, IfOk, OnOk};
ghost use Rattle.printed_form.specs.Pieces.{application_text, each_after, freezer_text, joined_by};
ghost use Rattle.printed_form.specs.Printed.{content_text as text_of_content, is_enclosed, list_text, map_text, part_text, part_texts, sequence_text, value_text as text_of_value};
ghost use Rattle.printed_form.specs.Words.{label_of, words_of};

use crate::pieces::{
    append, append_between, append_bool, append_int, append_number, append_quoted,
};
use crate::words::{Words, label, word};
use k_terms::{Content, Memory, Text, Value};
use std::alloc::Global;

/// The printed form of a value.
pub fn value_text(alloc: Global, words: &Words, value: &Value) -> Result<Text, Memory>
    ensures ok { IfOk result (λ text. text ≡ text_of_value (words_of words.now) value.now) }
{
    let mut out = Vec::new(alloc);
    print_value(alloc, words, value, &mut out)?;
    Ok(Text::from_vec(out))
}

/// Prints what a cell contains, and nothing where it contains cells. An `Err` may leave a part of the text in `out`.
pub fn print_content(
    alloc: Global,
    words: &Words,
    content: &Content,
    out: &mut Vec<u8>,
) -> Result<(), Memory>
    ensures ok { OnOk result (out.new.items ≡ out.old.items ++
        text_of_content (words_of words.now) content.now) }
{
    match content {
        Content::Cells => Ok(()),
        Content::Seq(items) => print_sequence(alloc, words, items.as_slice(), out),
        Content::Map(entries) => print_map(alloc, words, entries.as_slice(), out),
        Content::List(items) => print_list(alloc, words, items.as_slice(), out),
        Content::One(value) => print_value(alloc, words, value, out),
    }
}

/// Prints a value. An `Err` may leave a part of the text in `out`.
#[cycle(printing)]
pub fn print_value(
    alloc: Global,
    words: &Words,
    value: &Value,
    out: &mut Vec<u8>,
) -> Result<(), Memory>
    ensures ok { OnOk result (out.new.items ≡ out.old.items ++
        text_of_value (words_of words.now) value.now) }
{
    match value {
        Value::Int(number) => append_int(alloc, number, out),
        Value::Bool(truth) => append_bool(*truth, out),
        Value::Str(text) => append_quoted(text.as_slice(), out),
        Value::Id(symbol) => append(word(words, *symbol), out),
        Value::Node(prod, parts) => {
            print_application(alloc, words, *prod, b"(", parts.as_slice(), b")", out)
        }
        Value::Items(prod, parts) => {
            append(b".", out)?;
            print_application(alloc, words, *prod, b"[", parts.as_slice(), b"]", out)
        }
        Value::Seq(items) => print_sequence(alloc, words, items.as_slice(), out),
        Value::Map(entries) => print_map(alloc, words, entries.as_slice(), out),
        Value::List(items) => print_list(alloc, words, items.as_slice(), out),
        Value::Freezer(prod, place, parts) => print_freezer(
            alloc,
            words,
            *prod,
            *place,
            parts.as_slice(),
            out,
        ),
    }
}

/// Prints a production's label and, between two marks, the parts.
#[cycle(printing)]
fn print_application(
    alloc: Global,
    words: &Words,
    prod: u32,
    opening: &[u8],
    parts: &[Value],
    closing: &[u8],
    out: &mut Vec<u8>,
) -> Result<(), Memory>
    ensures ok { OnOk result (out.new.items ≡ out.old.items ++
        application_text (label_of (words_of words.now) prod) opening.now
        (part_texts (words_of words.now) parts.now) closing.now) }
{
    append(label(words, prod), out)?;
    append(opening, out)?;
    print_joined(alloc, words, b",", parts, out)?;
    append(closing, out)
}

/// Prints a production with a hole at one of its arguments.
#[cycle(printing)]
fn print_freezer(
    alloc: Global,
    words: &Words,
    prod: u32,
    place: u32,
    parts: &[Value],
    out: &mut Vec<u8>,
) -> Result<(), Memory>
    ensures ok { OnOk result (out.new.items ≡ out.old.items ++
        freezer_text (label_of (words_of words.now) prod) place
        (part_texts (words_of words.now) parts.now)) }
{
    append(b"#freeze(", out)?;
    append(label(words, prod), out)?;
    append(b",", out)?;
    append_number(alloc, place, out)?;
    print_each_after(alloc, words, b",", parts, out)?;
    append(b")", out)
}

/// Prints the items of a sequence.
#[cycle(printing)]
fn print_sequence(
    alloc: Global,
    words: &Words,
    items: &[Value],
    out: &mut Vec<u8>,
) -> Result<(), Memory>
    ensures ok { OnOk result (out.new.items ≡ out.old.items ++
        sequence_text (words_of words.now) items.now) }
{
    if items.is_empty() {
        append(b".K", out)
    } else {
        print_joined(alloc, words, b" ~> ", items, out)
    }
}

/// Prints parts with a separator between.
#[cycle(printing)]
fn print_joined(
    alloc: Global,
    words: &Words,
    separator: &[u8],
    parts: &[Value],
    out: &mut Vec<u8>,
) -> Result<(), Memory>
    ensures ok { OnOk result (out.new.items ≡ out.old.items ++
        joined_by separator.now (part_texts (words_of words.now) parts.now)) }
{
    for (index, part) in parts.iter().enumerate() {
        append_between(index, separator, out)?;
        print_part(alloc, words, part, out)?;
    }
    Ok(())
}

/// Prints parts, each after a separator.
#[cycle(printing)]
fn print_each_after(
    alloc: Global,
    words: &Words,
    separator: &[u8],
    parts: &[Value],
    out: &mut Vec<u8>,
) -> Result<(), Memory>
    ensures ok { OnOk result (out.new.items ≡ out.old.items ++
        each_after separator.now (part_texts (words_of words.now) parts.now)) }
{
    for part in parts {
        append(separator, out)?;
        print_part(alloc, words, part, out)?;
    }
    Ok(())
}

/// Prints the items of a list.
#[cycle(printing)]
fn print_list(
    alloc: Global,
    words: &Words,
    items: &[Value],
    out: &mut Vec<u8>,
) -> Result<(), Memory>
    ensures ok { OnOk result (out.new.items ≡ out.old.items ++
        list_text (words_of words.now) items.now) }
{
    if items.is_empty() {
        return append(b".List", out);
    }
    for (index, item) in items.iter().enumerate() {
        append_between(index, b" ", out)?;
        append(b"ListItem(", out)?;
        print_part(alloc, words, item, out)?;
        append(b")", out)?;
    }
    Ok(())
}

/// Prints the entries of a map.
#[cycle(printing)]
fn print_map(
    alloc: Global,
    words: &Words,
    entries: &[(Value, Value)],
    out: &mut Vec<u8>,
) -> Result<(), Memory>
    ensures ok { OnOk result (out.new.items ≡ out.old.items ++
        map_text (words_of words.now) entries.now) }
{
    if entries.is_empty() {
        return append(b".Map", out);
    }
    for (index, (key, value)) in entries.iter().enumerate() {
        append_between(index, b" ", out)?;
        print_part(alloc, words, key, out)?;
        append(b" |-> ", out)?;
        print_part(alloc, words, value, out)?;
    }
    Ok(())
}

/// Prints a value that is a part of another value.
#[cycle(printing)]
fn print_part(alloc: Global, words: &Words, part: &Value, out: &mut Vec<u8>) -> Result<(), Memory>
    ensures ok { OnOk result (out.new.items ≡ out.old.items ++
        part_text (words_of words.now) part.now) }
{
    if !needs_parentheses(part) {
        return print_value(alloc, words, part, out);
    }
    append(b"(", out)?;
    print_value(alloc, words, part, out)?;
    append(b")", out)
}

/// Whether a value stands in parentheses where it is a part of another value.
fn needs_parentheses(value: &Value) -> bool
    ensures { result ≡ is_enclosed value.now }
{
    match value {
        Value::Seq(items) | Value::List(items) => !items.is_empty(),
        Value::Map(entries) => !entries.is_empty(),
        _ => false,
    }
}
