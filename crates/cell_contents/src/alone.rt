//! Contents of one token.
ghost use Rattle.std.specs.Prelude.{◌≡◌, IfOk, Some, None};
ghost use Rattle.cell_contents.specs.Contents.{empty_of as empty_content, literal_alone as alone_literal, token_alone as alone_token, alone as alone_in};

use cell_tokens::{CellKind, CellToken};
use cell_trees::Declared;
use k_terms::{Content, Memory, Pairs, Value, Values, copy_text, sort};
use std::alloc::Global;

/// What `.`, `.K`, `.Map` and `.List` stand for.
fn empty_of(alloc: Global, of: Option<u32>) -> Content
    ensures { result ≡ empty_content of }
{
    let Some(of) = of else {
        return Content::Seq(Values::new(alloc));
    };
    if of == sort::K {
        return Content::Seq(Values::new(alloc));
    }
    if of == sort::MAP {
        return Content::Map(Pairs::new(alloc));
    }
    Content::List(Values::new(alloc))
}

/// A literal makes a cell of one value, and an identifier is an item.
fn literal_alone(alloc: Global, value: &Value) -> Result<Option<Declared>, Memory>
    ensures { IfOk result (λ found. found ≡ alone_literal value.now) }
{
    match value {
        Value::Int(number) => Ok(Some(Declared::Fixed(Content::One(Value::Int(*number))))),
        Value::Bool(truth) => Ok(Some(Declared::Fixed(Content::One(Value::Bool(*truth))))),
        Value::Str(text) => {
            let text = copy_text(alloc, text)?;
            Ok(Some(Declared::Fixed(Content::One(Value::Str(text)))))
        }
        _ => Ok(None),
    }
}

/// What a token declares alone, if it does.
fn token_alone(alloc: Global, kind: &CellKind) -> Result<Option<Declared>, Memory>
    ensures { IfOk result (λ found. found ≡ alone_token kind.now) }
{
    match kind {
        CellKind::Program(sort) => Ok(Some(Declared::Program { sort: *sort })),
        CellKind::Input => Ok(Some(Declared::Input)),
        CellKind::Dot(of) => Ok(Some(Declared::Fixed(empty_of(alloc, *of)))),
        CellKind::Literal(value) => literal_alone(alloc, value),
        _ => Ok(None),
    }
}

/// What tokens declare where they are one token that declares something alone: `$PGM:S`, `$IN:List`, an empty content, or a
/// literal.
pub(crate) fn alone(alloc: Global, tokens: &[CellToken]) -> Result<Option<Declared>, Memory>
    ensures { IfOk result (λ found. found ≡ alone_in tokens.now) }
{
    let Some((token, more)) = tokens.split_first() else {
        return Ok(None);
    };
    if !more.is_empty() {
        return Ok(None);
    }
    token_alone(alloc, &token.kind)
}
