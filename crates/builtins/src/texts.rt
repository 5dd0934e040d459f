//! Texts of bytes in UTF-8.
ghost use Rattle.std.specs.Prelude.{◌≡◌, [], ◌∷◌, length, filter, IfOk};
ghost use Rattle.k_terms.specs.Operators.{table, begins_character};
ghost use Rattle.k_terms.specs.declared.op.Op.TheVariants.{JoinString, LengthString, IntToString};

use crate::kinds::{int_of, text_of};
use k_terms::{Memory, Text, Value};
use std::alloc::Global;

/// The two texts joined.
pub(crate) fn joined(alloc: Global, a: &Value, b: &Value) -> Result<Option<Value>, Memory>
    ensures ok { IfOk result (λ value. value ≡ table JoinString (a.now ∷ b.now ∷ [])) }
{
    let Some(first) = text_of(a) else {
        return Ok(None);
    };
    let Some(second) = text_of(b) else {
        return Ok(None);
    };
    let mut bytes = Vec::from_slice(alloc, first.as_slice())?;
    bytes.extend_from_slice(second.as_slice())?;
    Ok(Some(Value::Str(Text::from_vec(bytes))))
}

/// The number of bytes that begin a character.
fn characters(bytes: &[u8]) -> usize
    ensures { result ≡ length (filter begins_character bytes.now) }
{
    bytes
        .iter()
        .filter(|byte| **byte < 128 || **byte > 191)
        .count()
}

/// The number of characters.
pub(crate) fn text_length(a: &Value) -> Option<Value>
    ensures { result ≡ table LengthString (a.now ∷ []) }
{
    Some(Value::Int(characters(text_of(a)?.as_slice()) as i128))
}

/// The number in decimal digits, with `-` where it is negative.
pub(crate) fn int_text(alloc: Global, a: &Value) -> Result<Option<Value>, Memory>
    ensures ok { IfOk result (λ value. value ≡ table IntToString (a.now ∷ [])) }
{
    let Some(number) = int_of(a) else {
        return Ok(None);
    };
    let digits = format!(in alloc; "{number}")?;
    Ok(Some(Value::Str(Text::from_vec(digits.into_bytes()))))
}
