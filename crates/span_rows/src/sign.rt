ghost use Rattle.std.specs.Prelude.{◌≡◌, ◌↔◌, ◌++◌, [], ◌∷◌, IfOk, IsTrue};
ghost use Rattle.span_rows.specs.declared.sign.Sign.TheVariants.{Open as OpenSign};

use k_terms::{Many, Memory};
use std::alloc::Global;

/// A sign of the code of a shape: a shape is written from left to right, a production after its parts, with a mark before
/// the first of them.
#[derive(Debug, Clone, Copy, PartialEq, Eq)]
pub enum Sign {
    /// The parts of a production begin.
    Open,
    /// The token at a place.
    Leaf(usize),
    /// The end of the parts of a production.
    Node(u32),
    /// The end of the elements of a list.
    Items(u32),
    /// The end of the elements of a list whose rest is the token at a place.
    ItemsAnd(u32, usize),
}

fn same_sign(one: &Sign, other: &Sign) -> bool
    ensures { IsTrue result ↔ (one.now ≡ other.now) }
{
    one == other
}

/// Two codes are the same.
pub fn same_code(one: &[Sign], other: &[Sign]) -> bool
    ensures { IsTrue result ↔ (one.now ≡ other.now) }
{
    one == other
}

/// One code behind another.
pub(crate) fn joined_code(
    alloc: Global,
    front: &[Sign],
    back: &[Sign],
) -> Result<Many<Sign>, Memory>
    ensures { IfOk result (λ code. code ≡ front.now ++ back.now) }
{
    let mut code = Vec::with_capacity(alloc, front.len())?;
    code.extend_from_slice(front)?;
    code.extend_from_slice(back)?;
    Ok(Many::from_vec(code))
}

/// A code as that of the parts of something.
pub(crate) fn enclosed_code(alloc: Global, code: &[Sign], end: Sign) -> Result<Many<Sign>, Memory>
    ensures { IfOk result (λ whole. whole ≡ OpenSign ∷ code.now ++ end ∷ []) }
{
    let mut whole = Vec::new(alloc);
    whole.push(Sign::Open)?;
    whole.extend_from_slice(code)?;
    whole.push(end)?;
    Ok(Many::from_vec(whole))
}
