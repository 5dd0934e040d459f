ghost use Rattle.std.specs.Prelude.{◌≡◌, ◌∷◌, ◌++◌, length, IfOk};
ghost use Rattle.std.specs.Fmt.{decimal};
ghost use Rattle.live_config.specs.Configuration.{plain};
ghost use Rattle.rule_terms.specs.Language.{Language};
ghost use Rattle.printed_form.specs.Configurations.{configuration_text as printed, names_of};
ghost use Rattle.krun.specs.Lines.{line_end};
ghost use Rattle.krun.specs.Headline.{words_of_language};

use k_terms::Memory;
use printed_form::{Words, configuration_text};
use rule_terms::{Defs, Plain};
use std::alloc::Global;

/// The text of a run: the word of its outcome, how many fired, and the configuration reached.
pub fn run_text(
    alloc: Global,
    word: &str,
    defs: &Defs,
    fired: usize,
    end: &Plain,
) -> Result<Vec<u8>, Memory>
    ensures { IfOk result (λ text. text.items ≡
        word.now ++ (32 ∷ decimal fired) ++ line_end ++ printed (words_of_language defs.now) (names_of defs.now.cells) end.now) }
{
    let words = Words {
        labels: defs.labels.as_slice(),
        symbols: &[],
    };
    let configuration = configuration_text(alloc, &words, defs.cells(), end)?;
    let line = format!(in alloc; "{word} {fired}\n")?;
    let mut text = Vec::from_slice(alloc, line.as_bytes())?;
    text.extend_from_slice(configuration.as_slice())?;
    Ok(text)
}
