//! The rules among the sentences of a definition.
ghost use Rattle.std.specs.Prelude.{◌≡◌, IfOk};
ghost use Rattle.context_transform.specs.WrittenRules.{rules_in};

use k_terms::{Many, Memory};
use module_reader::Sentence;
use std::alloc::Global;

/// The rules, in the order of the sentences.
pub(crate) fn rules_of(alloc: Global, sentences: &[Sentence]) -> Result<Many<Sentence>, Memory>
    ensures { IfOk result (λ found. found ≡ rules_in sentences.now) }
{
    let mut found = Many::new(alloc);
    for sentence in sentences {
        if let Sentence::Rule { at, first, past } = sentence {
            found.push(Sentence::Rule {
                at: *at,
                first: *first,
                past: *past,
            })?;
        }
    }
    Ok(found)
}
