ghost use Rattle.std.specs.Prelude.{map, string_bytes, IfSome, IfNone};
ghost use Rattle.std.specs.Prelude.{◌≡◌};
ghost use Rattle.krun.specs.Headline.{word_at};
ghost use Rattle.krun.specs.Causes.{AskFor, IsJob};
ghost use Rattle.krun.specs.Kast.{IsKast};
ghost use Rattle.krun.specs.Rules.{IsRules};

/// The names of the two files of a job.
#[derive(Clone, Copy)]
pub struct Job<'a> {
    pub definition: &'a str,
    pub program: &'a str,
}

/// The files of words that ask for a mode: the program's name, the mode, and the names of a definition and of a program.
fn files_of<'a>(words: &'a [String], wanted: &str) -> Option<Job<'a>>
    ensures job { IfSome result (λ _. AskFor (map string_bytes words.now) wanted.now 2) }
    ensures none { IfNone result (AskFor (map string_bytes words.now) wanted.now 2 → ⊥) }
    ensures definition { IfSome result (λ job. job.definition.now ≡ word_at (map string_bytes words.now) 2) }
    ensures program { IfSome result (λ job. job.program.now ≡ word_at (map string_bytes words.now) 3) }
{
    let [_, mode, definition, program] = words else {
        return None;
    };
    if mode.as_str() == wanted {
        return Some(Job {
            definition: definition.as_str(),
            program: program.as_str(),
        });
    }
    None
}

/// The files of the words that ask for a run.
pub fn job_of(words: &[String]) -> Option<Job<'_>>
    ensures job { IfSome result (λ _. IsJob (map string_bytes words.now)) }
    ensures none { IfNone result (IsJob (map string_bytes words.now) → ⊥) }
    ensures definition { IfSome result (λ job. job.definition.now ≡ word_at (map string_bytes words.now) 2) }
    ensures program { IfSome result (λ job. job.program.now ≡ word_at (map string_bytes words.now) 3) }
{
    files_of(words, "run")
}

/// The files of the words that ask for the term of a program.
pub fn kast_of(words: &[String]) -> Option<Job<'_>>
    ensures job { IfSome result (λ _. IsKast (map string_bytes words.now)) }
    ensures none { IfNone result (IsKast (map string_bytes words.now) → ⊥) }
    ensures definition { IfSome result (λ job. job.definition.now ≡ word_at (map string_bytes words.now) 2) }
    ensures program { IfSome result (λ job. job.program.now ≡ word_at (map string_bytes words.now) 3) }
{
    files_of(words, "kast")
}

/// The file of the words that ask for the rules of a definition: the program's name, the mode, and the file's name.
pub fn rules_of(words: &[String]) -> Option<&str>
    ensures job { IfSome result (λ _. IsRules (map string_bytes words.now)) }
    ensures none { IfNone result (IsRules (map string_bytes words.now) → ⊥) }
    ensures definition { IfSome result (λ name. name.now ≡ word_at (map string_bytes words.now) 2) }
{
    let [_, mode, definition] = words else {
        return None;
    };
    if mode.as_str() == "rules" {
        return Some(definition.as_str());
    }
    None
}
