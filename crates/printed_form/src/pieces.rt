ghost use Rattle.std.specs.Prelude.{◌≡◌, ◌==◌, ◌++◌, [], cond, OnOk};
ghost use Rattle.std.specs.Fmt.{decimal, signed_decimal};
ghost use Rattle.printed_form.specs.Pieces.{bool_text, escaped, quoted};

use k_terms::Memory;
use std::alloc::Global;

/// Adds bytes at the end.
pub(crate) fn append(bytes: &[u8], out: &mut Vec<u8>) -> Result<(), Memory>
    ensures ok { OnOk result (out.new.items ≡ out.old.items ++ bytes.now) }
{
    Ok(out.extend_from_slice(bytes)?)
}

/// Adds the separator, but not before the first.
pub(crate) fn append_between(
    index: usize,
    separator: &[u8],
    out: &mut Vec<u8>,
) -> Result<(), Memory>
    ensures ok { OnOk result (out.new.items ≡ out.old.items ++ cond (index == 0) [] separator.now) }
{
    if index == 0 {
        Ok(())
    } else {
        append(separator, out)
    }
}

pub(crate) fn append_int(alloc: Global, number: &i128, out: &mut Vec<u8>) -> Result<(), Memory>
    ensures ok { OnOk result (out.new.items ≡ out.old.items ++ signed_decimal number.now) }
{
    append(format!(in alloc; "{number}")?.as_bytes(), out)
}

pub(crate) fn append_number(alloc: Global, number: u32, out: &mut Vec<u8>) -> Result<(), Memory>
    ensures ok { OnOk result (out.new.items ≡ out.old.items ++ decimal number) }
{
    append(format!(in alloc; "{number}")?.as_bytes(), out)
}

pub(crate) fn append_bool(truth: bool, out: &mut Vec<u8>) -> Result<(), Memory>
    ensures ok { OnOk result (out.new.items ≡ out.old.items ++ bool_text truth) }
{
    if truth {
        append(b"true", out)
    } else {
        append(b"false", out)
    }
}

/// Adds a text in quotes.
pub(crate) fn append_quoted(text: &[u8], out: &mut Vec<u8>) -> Result<(), Memory>
    ensures ok { OnOk result (out.new.items ≡ out.old.items ++ quoted text.now) }
{
    append(b"\"", out)?;
    for byte in text {
        append_escaped(*byte, out)?;
    }
    append(b"\"", out)
}

/// Adds a byte of a text in quotes.
fn append_escaped(byte: u8, out: &mut Vec<u8>) -> Result<(), Memory>
    ensures ok { OnOk result (out.new.items ≡ out.old.items ++ escaped byte) }
{
    match byte {
        b'"' => append(b"\\\"", out),
        b'\\' => append(b"\\\\", out),
        b'\n' => append(b"\\n", out),
        b'\t' => append(b"\\t", out),
        _ => Ok(out.push(byte)?),
    }
}
