ghost use Rattle.std.specs.Prelude.{◌≡◌, ◌≢◌, ◌↔◌, ◌<◌, ◌≤◌, ◌⊎◌, ◌∷◌, [], List, ℕ, Some, None, map, string_bytes, length, true, false, IfSome, IfOk, IfErr};
ghost use Rattle.small_form.specs.declared.small.Small.{Small as Definition};
ghost use Rattle.small_form.specs.Small.{IsSmall, IsSmallText, HaveLabels, unplaced, language_of};
ghost use Rattle.small_form.specs.Program.{IsTermText};
ghost use Rattle.krun.specs.Outcome.{status_of, text_of, run_word, is_stop, HasFixedText, IsReported};
ghost use Rattle.context_transform.specs.Told.{wants_memory};
ghost use Rattle.krun.specs.Refusals.{HasNoRefusal};
ghost use Rattle.context_transform.specs.Assembling.{IsDefFault, IsOnlyFault};
ghost use Rattle.krun.specs.Headline.{word_at, caller_fired, run_text as text_of_run, IsRun, Took};
ghost use Rattle.krun.specs.Causes.{IsJob, IsDefinition, IsUnbuilt, IsOfSmallForm, IsProgram, IsWholeRun};
ghost use Rattle.k_terms.specs.declared.value.Value.{Value as Val};
ghost use Rattle.rule_terms.specs.Rewriting.{IsStuck};
ghost use Rattle.live_config.specs.Configuration.{plain};
ghost use Rattle.context_transform.specs.declared.fault.DefFault.{DefFault as Fault};
ghost use Rattle.krun.specs.declared.outcome.Outcome.TheVariants.{Usage as WantOfWords, Definition as DefinitionRefused, Unbuilt as NotOfSmallForm, Program as ProgramRefused, Memory as WantOfMemory, ReadFault as FaultOf, Final as OfFinal, Budget as OfBudget, Shown as WasShown};
ghost use Rattle.program_reader.specs.declared.refusal.ReadRefusal.TheVariants.{NoReading};
ghost use Rattle.krun.specs.declared.outcome.Which.TheVariants.{Definition as TheDefinition, Program as TheProgram};
ghost use Rattle.k_edge.specs.Faults.{Rose};
ghost use Rattle.whole_files.specs.Writing.{AppendsFront};
ghost use Rattle.std.specs.List.{AllByRecursion};
ghost use Rattle.live_config.specs.declared.site.Fired.{Fired as FiredEntry};
ghost use Rattle.live_config.specs.Runs.{IsLog};
ghost use Rattle.front_run.specs.Front.{one_cell, AreFrontRules};

use crate::def_fault::line_of_fault;
use crate::definition::definition_at;
use crate::file::file_bytes;
use crate::job::job_of;
use crate::outcome::{Outcome, WRITE_FAULT, Which};
use crate::report::Report;
use crate::texts::run_text;
use context_transform::DefFault;
use front_run::{Ending, run_program};
use k_edge::{Shelf, Sink};
use k_terms::{Many, Memory, Numbers, Value};
use live_config::{Fired, Live};
use program_reader::ReadRefusal;
use rule_terms::Defs;
use small_form::{Small, language, read_program};
use std::alloc::Global;
use whole_files::write_all;

/// The greatest length of a program, in bytes.
const PROGRAM_LIMIT: usize = 4096;

/// How many instances may fire.
const BUDGET: u32 = 100_000;

/// The number of workers where no word says another.
const WORKERS: usize = 4;

/// A run that ended, with its text.
#[derive(Drop)]
struct Ran {
    outcome: Outcome,
    fired: Many<Fired>,
    counts: Numbers,
    end: Live,
    text: Vec<u8>,
}

/// The value of the program that a file holds.
fn program_at<H: Shelf>(
    alloc: Global,
    shelf: &mut H,
    name: &str,
    small: &Small,
) -> Result<Value, Outcome>
    ensures read { IfSome (H.told shelf.old name.now) (λ file.
        IfOk result (λ value. IsTermText small.now.productions file value)) }
    ensures no_reading { HaveLabels small.now.productions → (cause : ReadRefusal) →
        IfErr result (λ refusal. refusal ≡ ProgramRefused cause → (cause ≡ NoReading 0) ×
        IfSome (H.told shelf.old name.now) (λ file. (v : Val) → IsTermText small.now.productions file v → ⊥)) }
    ensures refused { IfErr result (λ refusal. is_stop refusal ≡ true) }
    ensures words { IfErr result (λ refusal. refusal ≢ WantOfWords) }
    ensures later { (other : List ℕ) → H.faults shelf.old other ≤ H.faults shelf.new other }
    ensures only { IfErr result (λ refusal. refusal ≢ FaultOf TheDefinition) }
    ensures no_definition { IfErr result (λ refusal. refusal ≢ NotOfSmallForm) }
    ensures no_fault { (fault : Fault) → IfErr result (λ refusal. refusal ≢ DefinitionRefused fault) }
    ensures fault { IfErr result (λ refusal. refusal ≡ FaultOf TheProgram →
        Rose (H.faults shelf.old name.now) (H.faults shelf.new name.now)) }
{
    let bytes = file_bytes(alloc, shelf, name, PROGRAM_LIMIT, Which::Program)?;
    let Some(value) = read_program(alloc, small.productions.as_slice(), bytes.as_slice())? else {
        return Err(Outcome::Program(ReadRefusal::NoReading { at: 0 }));
    };
    Ok(value)
}

/// The number of instances that each worker fired: the caller all, and the others none.
fn counts_of(alloc: Global, fired: usize) -> Result<Numbers, Memory>
    ensures { IfOk result (λ counts. counts ≡ caller_fired fired) }
{
    let mut counts = Vec::from_elem(alloc, 0, WORKERS + 1)?;
    counts[0] = fired as u64;
    Ok(Many::from_vec(counts))
}

/// The outcome of a run that ended like this, and its word.
fn outcome_of(ending: Ending) -> (Outcome, &'static str)
    ensures word { run_word result.0 ≡ Some result.1.now }
    ensures no_rule { result.0 ≡ OfFinal → ending ≡ Ending.Final }
    ensures budget { result.0 ≡ OfBudget → ending ≡ Ending.Budget }
{
    match ending {
        Ending::Final => (Outcome::Final, "Final"),
        Ending::Budget => (Outcome::Budget, "Budget"),
    }
}

/// The run of a program, and its text.
fn run_of(alloc: Global, defs: &Defs, program: Value) -> Result<Ran, Outcome>
    ensures alone { IfOk result (λ ran. AllByRecursion (λ (entry : FiredEntry). entry.by ≡ 0) ran.fired) }
    ensures log { IfOk result (λ ran. IsLog defs.now (one_cell (program ∷ [])) ran.fired ran.end.now) }
    ensures stuck { IfOk result (λ ran. ran.outcome ≡ OfFinal → AreFrontRules defs.now → IsStuck defs.now (plain ran.end.now)) }
    ensures goes_on { IfOk result (λ ran. ran.outcome ≡ OfBudget → IsStuck defs.now (plain ran.end.now) → ⊥) }
    ensures within { IfOk result (λ ran. length ran.fired ≤ 100000) }
    ensures text { IfOk result (λ ran. IfSome (run_word ran.outcome) (λ word.
        ran.text.items ≡ text_of_run word defs.now ran.fired ran.end.now)) }
    ensures ended { IfOk result (λ ran. run_word ran.outcome ≢ None) }
    ensures refused { IfErr result (λ refusal. is_stop refusal ≡ true) }
    ensures words { IfErr result (λ refusal. refusal ≢ WantOfWords) }
    ensures only { IfErr result (λ refusal. refusal ≡ WantOfMemory) }
    ensures used_up { IfOk result (λ ran. ran.outcome ≡ OfBudget → length ran.fired ≡ 100000) }
    ensures counts { IfOk result (λ ran. ran.counts ≡ caller_fired (length ran.fired)) }
{
    let run = run_program(alloc, defs, program, BUDGET)?;
    let (outcome, word) = outcome_of(run.ending);
    let text = run_text(alloc, word, defs, run.fired.len(), &run.plain)?;
    let counts = counts_of(alloc, run.fired.len())?;
    Ok(Ran {
        outcome,
        fired: run.fired,
        counts,
        end: run.end,
        text,
    })
}

/// The run that the words ask for.
fn run_job<H: Shelf>(alloc: Global, shelf: &mut H, words: &[String]) -> Result<Ran, Outcome>
    ensures run { IfOk result (λ ran. IfSome (run_word ran.outcome) (λ word.
        IsRun (H.told shelf.old (word_at (map string_bytes words.now) 2)) (H.told shelf.old (word_at (map string_bytes words.now) 3))
        ran.outcome word ran.fired (Some ran.end) ran.text.items)) }
    ensures ended { IfOk result (λ ran. run_word ran.outcome ≢ None) }
    ensures refused { IfErr result (λ refusal. is_stop refusal ≡ true) }
    ensures words { IfErr result (λ refusal. (refusal ≡ WantOfWords) ↔ (IsJob (map string_bytes words.now) → ⊥)) }
    ensures job { IfOk result (λ _. IsJob (map string_bytes words.now)) }
    ensures definition_fault { IfErr result (λ refusal. refusal ≡ FaultOf TheDefinition →
        Rose (H.faults shelf.old (word_at (map string_bytes words.now) 2)) (H.faults shelf.new (word_at (map string_bytes words.now) 2))) }
    ensures definition { (fault : Fault) → IfErr result (λ refusal. refusal ≡ DefinitionRefused fault →
        IfSome (H.told shelf.old (word_at (map string_bytes words.now) 2)) (λ definition. IsOnlyFault definition fault)) }
    ensures never_memory { (fault : Fault) → IfErr result (λ refusal. refusal ≡ DefinitionRefused fault → wants_memory fault ≡ false) }
    ensures unbuilt { IfErr result (λ refusal. refusal ≡ NotOfSmallForm →
        IfSome (H.told shelf.old (word_at (map string_bytes words.now) 2)) IsUnbuilt) }
    ensures program_fault { IfErr result (λ refusal. refusal ≡ FaultOf TheProgram →
        IfSome (H.told shelf.old (word_at (map string_bytes words.now) 2)) IsDefinition ×
        Rose (H.faults shelf.old (word_at (map string_bytes words.now) 3)) (H.faults shelf.new (word_at (map string_bytes words.now) 3))) }
    ensures no_reading { (cause : ReadRefusal) → IfErr result (λ refusal. refusal ≡ ProgramRefused cause → (cause ≡ NoReading 0) ×
        IfSome (H.told shelf.old (word_at (map string_bytes words.now) 2)) (λ definition. IsDefinition definition ×
        IfSome (H.told shelf.old (word_at (map string_bytes words.now) 3)) (λ program. IsProgram definition program → ⊥))) }
    ensures counts { IfOk result (λ ran. ran.counts ≡ caller_fired (length ran.fired)) }
{
    let Some(job) = job_of(words) else {
        return Err(Outcome::Usage);
    };
    let small = definition_at(alloc, shelf, job.definition)?;
    let program = program_at(alloc, shelf, job.program, &small)?;
    let defs = language(alloc, small)?;
    run_of(alloc, &defs, program)
}

/// Writes a text, and gives the exit status: that of the outcome, or the one of a failed write.
pub(crate) fn status_after<O: Sink>(out: &mut O, text: &[u8], outcome: &Outcome) -> u8
    ensures status { (result ≡ 6) ⊎ (result ≡ status_of outcome.now) }
    ensures took { result ≢ 6 → Took (O.taken out.old) (O.taken out.new) text.now }
    ensures front { result ≡ 6 → AppendsFront (O.taken out.old) (O.taken out.new) text.now }
    ensures fault { result ≡ 6 → Rose (O.faults out.old) (O.faults out.new) }
{
    match write_all(out, text) {
        Ok(()) => outcome.status(),
        Err(_) => WRITE_FAULT,
    }
}

/// The report of a run, whose text is written.
fn report_run<O: Sink>(out: &mut O, ran: Ran) -> Report
    ensures status { (result.status ≡ 6) ⊎ (result.status ≡ status_of result.outcome) }
    ensures same { (result.outcome ≡ ran.outcome) × (result.fired ≡ ran.fired) × (result.end ≡ Some ran.end) }
    ensures counts { result.counts ≡ ran.counts }
    ensures took { result.status ≢ 6 → Took (O.taken out.old) (O.taken out.new) ran.text.items }
    ensures front { result.status ≡ 6 → AppendsFront (O.taken out.old) (O.taken out.new) ran.text.items }
    ensures fault { result.status ≡ 6 → Rose (O.faults out.old) (O.faults out.new) }
{
    let Ran {
        outcome,
        fired,
        counts,
        end,
        text,
    } = ran;
    Report {
        status: status_after(out, text.as_slice(), &outcome),
        outcome,
        fired,
        counts,
        end: Some(end),
    }
}

/// The report of a refusal.
pub(crate) fn refused(alloc: Global, status: u8, outcome: Outcome) -> Report
    ensures status { result.status ≡ status }
    ensures same { result.outcome ≡ outcome }
    ensures empty { (result.fired ≡ []) × (result.counts ≡ []) × (result.end ≡ None) }
{
    Report {
        status,
        outcome,
        fired: Many::new(alloc),
        counts: Many::new(alloc),
        end: None,
    }
}

/// The report of a refusal whose line is always the same, and is written.
fn report_fixed<O: Sink>(alloc: Global, out: &mut O, outcome: Outcome) -> Report
    requires { HasFixedText outcome }
    ensures status { (result.status ≡ 6) ⊎ (result.status ≡ status_of result.outcome) }
    ensures same { result.outcome ≡ outcome }
    ensures empty { (result.fired ≡ []) × (result.counts ≡ []) × (result.end ≡ None) }
    ensures took { result.status ≢ 6 → Took (O.taken out.old) (O.taken out.new) (text_of outcome) }
    ensures front { result.status ≡ 6 → AppendsFront (O.taken out.old) (O.taken out.new) (text_of outcome) }
    ensures fault { result.status ≡ 6 → Rose (O.faults out.old) (O.faults out.new) }
{
    let status = status_after(out, outcome.fixed_line(), &outcome);
    refused(alloc, status, outcome)
}

/// The report of a definition that was refused, whose line is written; where memory is wanting for the line, that is the
/// outcome.
fn report_fault<O: Sink>(alloc: Global, out: &mut O, fault: DefFault) -> Report
    ensures status { (result.status ≡ 6) ⊎ (result.status ≡ status_of result.outcome) }
    ensures same { (result.outcome ≡ DefinitionRefused fault) ⊎ (result.outcome ≡ WantOfMemory) }
    ensures empty { (result.fired ≡ []) × (result.counts ≡ []) × (result.end ≡ None) }
    ensures took { result.status ≢ 6 → Took (O.taken out.old) (O.taken out.new) (text_of result.outcome) }
    ensures front { result.status ≡ 6 → AppendsFront (O.taken out.old) (O.taken out.new) (text_of result.outcome) }
    ensures fault { result.status ≡ 6 → Rose (O.faults out.old) (O.faults out.new) }
{
    let Ok(line) = line_of_fault(alloc, &fault) else {
        return report_fixed(alloc, out, Outcome::Memory);
    };
    let outcome = Outcome::Definition(fault);
    let status = status_after(out, line.as_slice(), &outcome);
    refused(alloc, status, outcome)
}

/// The report of a refusal, whose line is written.
pub(crate) fn report_refusal<O: Sink>(alloc: Global, out: &mut O, outcome: Outcome) -> Report
    ensures status { (result.status ≡ 6) ⊎ (result.status ≡ status_of result.outcome) }
    ensures same { IsReported outcome result.outcome }
    ensures empty { (result.fired ≡ []) × (result.counts ≡ []) × (result.end ≡ None) }
    ensures took { result.status ≢ 6 → Took (O.taken out.old) (O.taken out.new) (text_of result.outcome) }
    ensures front { result.status ≡ 6 → AppendsFront (O.taken out.old) (O.taken out.new) (text_of result.outcome) }
    ensures fault { result.status ≡ 6 → Rose (O.faults out.old) (O.faults out.new) }
{
    match outcome {
        Outcome::Definition(fault) => report_fault(alloc, out, fault),
        fixed => report_fixed(alloc, out, fixed),
    }
}

/// The report of a run: reads a definition and a program, rewrites the program by the definition's rules, at most 100,000 times, and writes
/// the outcome, the number of firings and the configuration reached, or the line of a refusal. Where a file can't be
/// read or memory is wanting, it writes nothing. Where the text can't be written, the status is 6, and the outcome says
/// what would have been written.
pub fn run_report<H: Shelf, O: Sink>(
    alloc: Global,
    words: &[String],
    shelf: &mut H,
    out: &mut O,
) -> Report
    ensures run { IfSome (run_word result.outcome) (λ word. (text : List ℕ) ×
        IsRun (H.told shelf.old (word_at (map string_bytes words.now) 2)) (H.told shelf.old (word_at (map string_bytes words.now) 3))
        result.outcome word result.fired result.end text ×
        (result.status ≢ 6 → Took (O.taken out.old) (O.taken out.new) text) ×
        (result.status ≡ 6 → AppendsFront (O.taken out.old) (O.taken out.new) text)) }
    ensures refusal { is_stop result.outcome ≡ true → result.status ≢ 6 →
        Took (O.taken out.old) (O.taken out.new) (text_of result.outcome) }
    ensures refusal_front { is_stop result.outcome ≡ true → result.status ≡ 6 →
        AppendsFront (O.taken out.old) (O.taken out.new) (text_of result.outcome) }
    ensures empty { is_stop result.outcome ≡ true → (result.fired ≡ []) × (result.counts ≡ []) × (result.end ≡ None) }
    ensures never_shown { result.outcome ≢ WasShown }
    ensures counts { run_word result.outcome ≢ None → result.counts ≡ caller_fired (length result.fired) }
    ensures status { (result.status ≡ 6) ⊎ (result.status ≡ status_of result.outcome) }

    // The cause of each refusal, in the order in which they are tried.
    ensures usage { (result.outcome ≡ WantOfWords) ↔ (IsJob (map string_bytes words.now) → ⊥) }
    ensures definition_fault { result.outcome ≡ FaultOf TheDefinition →
        Rose (H.faults shelf.old (word_at (map string_bytes words.now) 2)) (H.faults shelf.new (word_at (map string_bytes words.now) 2)) }
    ensures definition { (fault : Fault) → result.outcome ≡ DefinitionRefused fault →
        IfSome (H.told shelf.old (word_at (map string_bytes words.now) 2)) (λ definition. IsDefFault definition fault) }
    ensures never_memory { (fault : Fault) → result.outcome ≡ DefinitionRefused fault → wants_memory fault ≡ false }
    ensures unbuilt { result.outcome ≡ NotOfSmallForm →
        IfSome (H.told shelf.old (word_at (map string_bytes words.now) 2)) IsUnbuilt }
    ensures program_fault { result.outcome ≡ FaultOf TheProgram →
        IfSome (H.told shelf.old (word_at (map string_bytes words.now) 2)) IsDefinition ×
        Rose (H.faults shelf.old (word_at (map string_bytes words.now) 3)) (H.faults shelf.new (word_at (map string_bytes words.now) 3)) }
    ensures no_reading { (cause : ReadRefusal) → result.outcome ≡ ProgramRefused cause → (cause ≡ NoReading 0) ×
        IfSome (H.told shelf.old (word_at (map string_bytes words.now) 2)) (λ definition. IsDefinition definition ×
        IfSome (H.told shelf.old (word_at (map string_bytes words.now) 3)) (λ program. IsProgram definition program → ⊥)) }
    ensures write_fault { result.status ≡ 6 → Rose (O.faults out.old) (O.faults out.new) }

    // Where a file is told and no count rose, its refusal comes exactly where it has the cause, and else the run is whole;
    // only memory may be wanting.
    ensures definition_where { (fault : Fault) → IsJob (map string_bytes words.now) → IfSome (H.told shelf.old (word_at (map string_bytes words.now) 2)) (λ definition.
        IsDefFault definition fault →
        (Rose (H.faults shelf.old (word_at (map string_bytes words.now) 2)) (H.faults shelf.new (word_at (map string_bytes words.now) 2)) → ⊥) →
        (result.outcome ≡ DefinitionRefused fault) ⊎ (result.outcome ≡ WantOfMemory)) }
    ensures unbuilt_where { IsJob (map string_bytes words.now) → IfSome (H.told shelf.old (word_at (map string_bytes words.now) 2)) (λ definition.
        HasNoRefusal definition → (IsOfSmallForm definition → ⊥) →
        (Rose (H.faults shelf.old (word_at (map string_bytes words.now) 2)) (H.faults shelf.new (word_at (map string_bytes words.now) 2)) → ⊥) →
        (result.outcome ≡ NotOfSmallForm) ⊎ (result.outcome ≡ WantOfMemory)) }
    ensures no_reading_where { IsJob (map string_bytes words.now) → IfSome (H.told shelf.old (word_at (map string_bytes words.now) 2)) (λ definition.
        IsDefinition definition → IfSome (H.told shelf.old (word_at (map string_bytes words.now) 3)) (λ program.
        (IsProgram definition program → ⊥) →
        (Rose (H.faults shelf.old (word_at (map string_bytes words.now) 2)) (H.faults shelf.new (word_at (map string_bytes words.now) 2)) → ⊥) →
        (Rose (H.faults shelf.old (word_at (map string_bytes words.now) 3)) (H.faults shelf.new (word_at (map string_bytes words.now) 3)) → ⊥) →
        (result.outcome ≡ ProgramRefused (NoReading 0)) ⊎ (result.outcome ≡ WantOfMemory))) }
    ensures complete { IsJob (map string_bytes words.now) → IfSome (H.told shelf.old (word_at (map string_bytes words.now) 2)) (λ definition.
        IfSome (H.told shelf.old (word_at (map string_bytes words.now) 3)) (λ program.
        IsProgram definition program →
        (Rose (H.faults shelf.old (word_at (map string_bytes words.now) 2)) (H.faults shelf.new (word_at (map string_bytes words.now) 2)) → ⊥) →
        (Rose (H.faults shelf.old (word_at (map string_bytes words.now) 3)) (H.faults shelf.new (word_at (map string_bytes words.now) 3)) → ⊥) →
        (Rose (O.faults out.old) (O.faults out.new) → ⊥) →
        (result.outcome ≡ WantOfMemory) ⊎ IsWholeRun (Some definition) (Some program) result.status result.outcome result.fired result.end (O.taken out.old) (O.taken out.new))) }
{
    match run_job(alloc, shelf, words) {
        Ok(ran) => report_run(out, ran),
        Err(outcome) => report_refusal(alloc, out, outcome),
    }
}
