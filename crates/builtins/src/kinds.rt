//! The kinds of arguments: what a value is, where it is of the kind that an operator takes.
ghost use Rattle.std.specs.Prelude.{◌≡◌, option_copied};
ghost use Rattle.k_terms.specs.Operators.{as_int, as_truth, as_text, as_entries, as_members, as_item};

use k_terms::{Pairs, Text, Value, Values};

pub(crate) fn int_of(value: &Value) -> Option<i128>
    ensures { result ≡ as_int value.now }
{
    match value {
        Value::Int(number) => Some(*number),
        _ => None,
    }
}

pub(crate) fn truth_of(value: &Value) -> Option<bool>
    ensures { result ≡ as_truth value.now }
{
    match value {
        Value::Bool(truth) => Some(*truth),
        _ => None,
    }
}

pub(crate) fn text_of(value: &Value) -> Option<&Text>
    ensures { option_copied result ≡ as_text value.now }
{
    match value {
        Value::Str(text) => Some(text),
        _ => None,
    }
}

pub(crate) fn entries_of(value: &Value) -> Option<&Pairs>
    ensures { option_copied result ≡ as_entries value.now }
{
    match value {
        Value::Map(entries) => Some(entries),
        _ => None,
    }
}

pub(crate) fn members_of(value: &Value) -> Option<&Values>
    ensures { option_copied result ≡ as_members value.now }
{
    match value {
        Value::List(members) => Some(members),
        _ => None,
    }
}

/// Any value but a whole sequence, map or list.
pub(crate) fn item_of(value: &Value) -> Option<&Value>
    ensures { option_copied result ≡ as_item value.now }
{
    match value {
        Value::Seq(_) | Value::Map(_) | Value::List(_) => None,
        _ => Some(value),
    }
}
