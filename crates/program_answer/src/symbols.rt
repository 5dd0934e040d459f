//! The words of names.
ghost use Rattle.std.specs.Prelude.{◌≡◌, IfOk};

use k_terms::{Memory, Names, Symbol, Text};
use std::alloc::Global;

/// The words of names, in the order of their numbers.
pub(crate) fn symbols(alloc: Global, names: &Names) -> Result<Vec<Text>, Memory>
    ensures { IfOk result (λ symbols. symbols.items ≡ names.now) }
{
    let mut symbols = Vec::new(alloc);
    let mut number: u32 = 0;
    while let Some(word) = names.word(Symbol(number)) {
        symbols.push(Text::from_vec(Vec::from_slice(alloc, word.as_bytes())?))?;
        let Some(next) = number.checked_add(1) else {
            return Err(Memory);
        };
        number = next;
    }
    Ok(symbols)
}
