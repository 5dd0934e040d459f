//! The whole program, by one worker.
ghost use Rattle.std.specs.Prelude.{◌≡◌, ◌≢◌, ◌↔◌, ◌⊎◌, [], List, ℕ, Some, None, map, string_bytes, length, true, false, IfSome};
ghost use Rattle.k_edge.specs.Faults.{Rose};
ghost use Rattle.whole_files.specs.Writing.{AppendsFront};
ghost use Rattle.krun.specs.Outcome.{status_of, text_of, run_word, is_stop, is_answer};
ghost use Rattle.context_transform.specs.Told.{wants_memory};
ghost use Rattle.krun.specs.Refusals.{HasNoRefusal};
ghost use Rattle.krun.specs.Headline.{word_at, caller_fired, IsRun, Took};
ghost use Rattle.krun.specs.Causes.{IsJob, IsDefinition, IsUnbuilt, IsOfSmallForm, IsProgram, IsWholeRun};
ghost use Rattle.context_transform.specs.Assembling.{IsDefFault};
ghost use Rattle.krun.specs.Assembled.{IsUndefined};
ghost use Rattle.krun.specs.Kast.{IsKast, IsAnswer, IsStopped, Answers, AreAlike};
ghost use Rattle.krun.specs.Rules.{IsRules, ListsOnly, MustList};
ghost use Rattle.context_transform.specs.declared.fault.DefFault.{DefFault as Fault};
ghost use Rattle.krun.specs.declared.outcome.Outcome.{Outcome as AnOutcome};
ghost use Rattle.krun.specs.declared.outcome.Outcome.TheVariants.{Usage as WantOfWords, Definition as DefinitionRefused, Unbuilt as NotOfSmallForm, Program as ProgramRefused, Memory as WantOfMemory, ReadFault as FaultOf, Shown as WasShown};
ghost use Rattle.program_reader.specs.declared.refusal.ReadRefusal.{ReadRefusal};
ghost use Rattle.program_reader.specs.declared.refusal.ReadRefusal.TheVariants.{NoReading};
ghost use Rattle.krun.specs.declared.outcome.Which.TheVariants.{Definition as TheDefinition, Program as TheProgram};

use crate::job::{kast_of, rules_of};
use crate::kast::kast_report;
use crate::report::Report;
use crate::rules::rules_report;
use crate::top::run_report;
use k_edge::{Shelf, Sink};
use std::alloc::Global;

/// `run` reads a definition and a program, rewrites the program by the definition's rules, at most 100,000 times, and writes
/// the outcome, the number of firings and the configuration reached. `kast` reads both, and writes the term that the program
/// is. `rules` reads a definition, and writes a line for each of its rules. Each writes the line of a refusal instead; all three
/// refuse a definition alike. Where a file can't be read or memory is wanting, nothing is written. Where the text can't be
/// written, the status is 6, and the outcome says what would have been written.
pub fn krun_alone<H: Shelf, O: Sink>(
    alloc: Global,
    words: &[String],
    shelf: &mut H,
    out: &mut O,
) -> Report
    ensures run { IfSome (run_word result.outcome) (λ word. (text : List ℕ) ×
        IsRun (H.told shelf.old (word_at (map string_bytes words.now) 2)) (H.told shelf.old (word_at (map string_bytes words.now) 3))
        result.outcome word result.fired result.end text ×
        (result.status ≢ 6 → Took (O.taken out.old) (O.taken out.new) text) ×
        (result.status ≡ 6 → AppendsFront (O.taken out.old) (O.taken out.new) text)) }
    ensures refusal { (IsKast (map string_bytes words.now) → is_answer result.outcome ≡ false) → is_stop result.outcome ≡ true → result.status ≢ 6 →
        Took (O.taken out.old) (O.taken out.new) (text_of result.outcome) }
    ensures refusal_front { (IsKast (map string_bytes words.now) → is_answer result.outcome ≡ false) → is_stop result.outcome ≡ true → result.status ≡ 6 →
        AppendsFront (O.taken out.old) (O.taken out.new) (text_of result.outcome) }
    ensures empty { is_stop result.outcome ≡ true → (result.fired ≡ []) × (result.counts ≡ []) × (result.end ≡ None) }
    ensures counts { run_word result.outcome ≢ None → result.counts ≡ caller_fired (length result.fired) }
    ensures status { (result.status ≡ 6) ⊎ (result.status ≡ status_of result.outcome) }

    // The cause of each refusal, in the order in which they are tried.
    ensures usage { (result.outcome ≡ WantOfWords) ↔ (IsJob (map string_bytes words.now) ⊎ IsKast (map string_bytes words.now) ⊎ IsRules (map string_bytes words.now) → ⊥) }
    ensures definition_fault { result.outcome ≡ FaultOf TheDefinition →
        Rose (H.faults shelf.old (word_at (map string_bytes words.now) 2)) (H.faults shelf.new (word_at (map string_bytes words.now) 2)) }
    ensures definition { IsJob (map string_bytes words.now) → (fault : Fault) → result.outcome ≡ DefinitionRefused fault →
        IfSome (H.told shelf.old (word_at (map string_bytes words.now) 2)) (λ definition. IsDefFault definition fault) }
    ensures never_memory { (fault : Fault) → result.outcome ≡ DefinitionRefused fault → wants_memory fault ≡ false }
    ensures unbuilt { IsJob (map string_bytes words.now) → result.outcome ≡ NotOfSmallForm →
        IfSome (H.told shelf.old (word_at (map string_bytes words.now) 2)) IsUnbuilt }
    ensures program_fault { IsJob (map string_bytes words.now) → result.outcome ≡ FaultOf TheProgram →
        IfSome (H.told shelf.old (word_at (map string_bytes words.now) 2)) IsDefinition ×
        Rose (H.faults shelf.old (word_at (map string_bytes words.now) 3)) (H.faults shelf.new (word_at (map string_bytes words.now) 3)) }
    ensures no_reading { IsJob (map string_bytes words.now) → (cause : ReadRefusal) → result.outcome ≡ ProgramRefused cause → (cause ≡ NoReading 0) ×
        IfSome (H.told shelf.old (word_at (map string_bytes words.now) 2)) (λ definition. IsDefinition definition ×
        IfSome (H.told shelf.old (word_at (map string_bytes words.now) 3)) (λ program. IsProgram definition program → ⊥)) }
    ensures write_fault { result.status ≡ 6 → Rose (O.faults out.old) (O.faults out.new) }

    // Where a file is told and no count rose, its refusal comes exactly where it has the cause, and else the run is whole;
    // only memory may be wanting.
    ensures definition_where { (fault : Fault) → IsJob (map string_bytes words.now) → IfSome (H.told shelf.old (word_at (map string_bytes words.now) 2)) (λ definition.
        IsDefFault definition fault →
        (Rose (H.faults shelf.old (word_at (map string_bytes words.now) 2)) (H.faults shelf.new (word_at (map string_bytes words.now) 2)) → ⊥) →
        (result.outcome ≡ DefinitionRefused fault) ⊎ (result.outcome ≡ WantOfMemory)) }
    ensures unbuilt_where { IsJob (map string_bytes words.now) → IfSome (H.told shelf.old (word_at (map string_bytes words.now) 2)) (λ definition.
        HasNoRefusal definition → (IsOfSmallForm definition → ⊥) →
        (Rose (H.faults shelf.old (word_at (map string_bytes words.now) 2)) (H.faults shelf.new (word_at (map string_bytes words.now) 2)) → ⊥) →
        (result.outcome ≡ NotOfSmallForm) ⊎ (result.outcome ≡ WantOfMemory)) }
    ensures no_reading_where { IsJob (map string_bytes words.now) → IfSome (H.told shelf.old (word_at (map string_bytes words.now) 2)) (λ definition.
        IsDefinition definition → IfSome (H.told shelf.old (word_at (map string_bytes words.now) 3)) (λ program.
        (IsProgram definition program → ⊥) →
        (Rose (H.faults shelf.old (word_at (map string_bytes words.now) 2)) (H.faults shelf.new (word_at (map string_bytes words.now) 2)) → ⊥) →
        (Rose (H.faults shelf.old (word_at (map string_bytes words.now) 3)) (H.faults shelf.new (word_at (map string_bytes words.now) 3)) → ⊥) →
        (result.outcome ≡ ProgramRefused (NoReading 0)) ⊎ (result.outcome ≡ WantOfMemory))) }
    ensures complete { IsJob (map string_bytes words.now) → IfSome (H.told shelf.old (word_at (map string_bytes words.now) 2)) (λ definition.
        IfSome (H.told shelf.old (word_at (map string_bytes words.now) 3)) (λ program.
        IsProgram definition program →
        (Rose (H.faults shelf.old (word_at (map string_bytes words.now) 2)) (H.faults shelf.new (word_at (map string_bytes words.now) 2)) → ⊥) →
        (Rose (H.faults shelf.old (word_at (map string_bytes words.now) 3)) (H.faults shelf.new (word_at (map string_bytes words.now) 3)) → ⊥) →
        (Rose (O.faults out.old) (O.faults out.new) → ⊥) →
        (result.outcome ≡ WantOfMemory) ⊎ IsWholeRun (Some definition) (Some program) result.status result.outcome result.fired result.end (O.taken out.old) (O.taken out.new))) }

    // What `kast` answers, with its text; why it gives no answer; and where it must.
    ensures kast { IsKast (map string_bytes words.now) → is_answer result.outcome ≡ true → (text : List ℕ)
        × IsAnswer (H.told shelf.old (word_at (map string_bytes words.now) 2)) (H.told shelf.old (word_at (map string_bytes words.now) 3)) result.outcome text
        × (result.status ≢ 6 → Took (O.taken out.old) (O.taken out.new) text)
        × (result.status ≡ 6 → AppendsFront (O.taken out.old) (O.taken out.new) text) }
    ensures kast_stop { IsKast (map string_bytes words.now) → is_answer result.outcome ≡ false →
        IsStopped (H.told shelf.old (word_at (map string_bytes words.now) 2))
        (Rose (H.faults shelf.old (word_at (map string_bytes words.now) 2)) (H.faults shelf.new (word_at (map string_bytes words.now) 2)))
        (Rose (H.faults shelf.old (word_at (map string_bytes words.now) 3)) (H.faults shelf.new (word_at (map string_bytes words.now) 3))) result.outcome }
    ensures kast_nothing_where { IsKast (map string_bytes words.now) → IfSome (H.told shelf.old (word_at (map string_bytes words.now) 2)) (λ definition.
        (fault : Fault) → IsDefFault definition fault →
        (Rose (H.faults shelf.old (word_at (map string_bytes words.now) 2)) (H.faults shelf.new (word_at (map string_bytes words.now) 2)) → ⊥) →
        (result.outcome ≡ DefinitionRefused fault) ⊎ (result.outcome ≡ WantOfMemory)) }
    ensures kast_where { IsKast (map string_bytes words.now) → IfSome (H.told shelf.old (word_at (map string_bytes words.now) 2)) (λ definition.
        IfSome (H.told shelf.old (word_at (map string_bytes words.now) 3)) (λ program.
        (o : AnOutcome) → Answers definition program o →
        (Rose (H.faults shelf.old (word_at (map string_bytes words.now) 2)) (H.faults shelf.new (word_at (map string_bytes words.now) 2)) → ⊥) →
        (Rose (H.faults shelf.old (word_at (map string_bytes words.now) 3)) (H.faults shelf.new (word_at (map string_bytes words.now) 3)) → ⊥) →
        AreAlike o result.outcome ⊎ (result.outcome ≡ WantOfMemory))) }

    // What `rules` shows; why it shows nothing; and where it must answer what.
    ensures rules { IsRules (map string_bytes words.now) → result.outcome ≡ WasShown → (lines : List ℕ)
        × IfSome (H.told shelf.old (word_at (map string_bytes words.now) 2)) (λ definition. ListsOnly definition lines)
        × (result.status ≢ 6 → Took (O.taken out.old) (O.taken out.new) lines)
        × (result.status ≡ 6 → AppendsFront (O.taken out.old) (O.taken out.new) lines) }
    ensures rules_stop { IsRules (map string_bytes words.now) → result.outcome ≢ WasShown →
        IsUndefined (H.told shelf.old (word_at (map string_bytes words.now) 2))
        (Rose (H.faults shelf.old (word_at (map string_bytes words.now) 2)) (H.faults shelf.new (word_at (map string_bytes words.now) 2))) result.outcome }
    ensures rules_where { IsRules (map string_bytes words.now) → IfSome (H.told shelf.old (word_at (map string_bytes words.now) 2)) (λ definition.
        (o : AnOutcome) → MustList definition o →
        (Rose (H.faults shelf.old (word_at (map string_bytes words.now) 2)) (H.faults shelf.new (word_at (map string_bytes words.now) 2)) → ⊥) →
        (result.outcome ≡ o) ⊎ (result.outcome ≡ WantOfMemory)) }
{
    if let Some(job) = kast_of(words) {
        return kast_report(alloc, shelf, out, &job);
    }
    if let Some(definition) = rules_of(words) {
        return rules_report(alloc, shelf, out, definition);
    }
    run_report(alloc, words, shelf, out)
}
