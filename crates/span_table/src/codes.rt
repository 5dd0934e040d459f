//! The shape that a code is of.
ghost use Rattle.std.specs.Prelude.{◌≡◌, IfOk};
ghost use Rattle.span_table.specs.Codes.{code_of, IsCode};
ghost use Rattle.span_table.specs.ReadBack.{IsReadOn, IsEnded};

use grammar_terms::Shape;
use k_terms::{Many, Memory};
use span_rows::Sign;
use std::alloc::Global;

/// The shapes that were read back: the parts of what is open, and of what is around it, the outermost first.
#[derive(Debug, Drop)]
pub struct Parts {
    /// The parts of what is open.
    pub shapes: Many<Shape>,
    /// The parts of what is around it.
    pub outers: Vec<Many<Shape>>,
}

/// The parts with a sign more, where it stands there.
fn read_sign(alloc: Global, sign: Sign, parts: Parts) -> Result<Option<Parts>, Memory>
    ensures { IfOk result (IsReadOn sign parts) }
{
    let Parts {
        mut shapes,
        mut outers,
    } = parts;
    match sign {
        Sign::Open => {
            outers.push(shapes)?;
            shapes = Many::new(alloc);
            Ok(Some(Parts { shapes, outers }))
        }
        Sign::Leaf(at) => {
            shapes.push(Shape::Leaf(at))?;
            Ok(Some(Parts { shapes, outers }))
        }
        Sign::Node(prod) => end_parts(outers, Shape::Node(prod, shapes)),
        Sign::Items(prod) => end_parts(outers, Shape::Items(prod, shapes, None)),
        Sign::ItemsAnd(prod, rest) => end_parts(outers, Shape::Items(prod, shapes, Some(rest))),
    }
}

/// The parts of what is around a shape, with it.
fn end_parts(mut outers: Vec<Many<Shape>>, shape: Shape) -> Result<Option<Parts>, Memory>
    ensures { IfOk result (IsEnded outers.items shape) }
{
    let Some(mut shapes) = outers.pop() else {
        return Ok(None);
    };
    shapes.push(shape)?;
    Ok(Some(Parts { shapes, outers }))
}

/// The shape that a code is of.
pub(crate) fn shape_of(alloc: Global, code: &[Sign]) -> Result<Shape, Memory>
    requires { IsCode code.now }
    ensures { IfOk result (λ shape. code.now ≡ code_of shape) }
{
    let mut parts = Parts {
        shapes: Many::new(alloc),
        outers: Vec::new(alloc),
    };
    for sign in code {
        let Some(more) = read_sign(alloc, *sign, parts)? else {
            unreachable!()
        };
        parts = more;
    }
    let Some(shape) = parts.shapes.into_vec().pop() else {
        unreachable!()
    };
    Ok(shape)
}
