//! What the tokens of a configuration are to its cells.
ghost use Rattle.std.specs.Prelude.{◌≡◌, IfOk};
ghost use Rattle.cell_config.specs.Divisions.{sign_of as sign_in, signs_of as signs_in};

use cell_forms::Sign;
use cell_tokens::{CellKind, CellToken};
use k_terms::{Many, Memory, copy_text};
use std::alloc::Global;

fn sign_of(alloc: Global, token: &CellToken) -> Result<Sign, Memory>
    ensures { IfOk result (λ sign. sign ≡ sign_in token.now.kind) }
{
    match &token.kind {
        CellKind::Open { name, many } => Ok(Sign::Open {
            name: copy_text(alloc, name)?,
            many: *many,
        }),
        CellKind::Close { name } => Ok(Sign::Close {
            name: copy_text(alloc, name)?,
        }),
        _ => Ok(Sign::Other),
    }
}

/// What each token is.
pub(crate) fn signs_of(alloc: Global, tokens: &[CellToken]) -> Result<Many<Sign>, Memory>
    ensures { IfOk result (λ signs. signs ≡ signs_in tokens.now) }
{
    let mut signs = Many::new(alloc);
    for token in tokens {
        signs.push(sign_of(alloc, token)?)?;
    }
    Ok(signs)
}
