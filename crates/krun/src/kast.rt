//! The term that a program is read as.
ghost use Rattle.std.specs.Prelude.{◌≡◌, ◌≢◌, ◌≤◌, ◌⊎◌, [], List, ℕ, None, length, true, false, IfSome, IfOk, IfErr};
ghost use Rattle.k_edge.specs.Faults.{Rose};
ghost use Rattle.whole_files.specs.Writing.{AppendsFront};
ghost use Rattle.krun.specs.Outcome.{status_of, text_of, is_answer};
ghost use Rattle.krun.specs.Headline.{Took};
ghost use Rattle.krun.specs.Kast.{IsAnswer, IsStopped, IsReadOf, told_answer};
ghost use Rattle.krun.specs.declared.outcome.Outcome.TheVariants.{Memory as WantOfMemory, ReadFault as FaultOf};
ghost use Rattle.krun.specs.declared.outcome.Which.TheVariants.{Program as TheProgram};

use crate::assembled::assembly_at;
use crate::file::file_bytes;
use crate::job::Job;
use crate::outcome::{Outcome, Which};
use crate::report::Report;
use crate::top::{refused, report_refusal, status_after};
use context_transform::Definition;
use k_edge::{Shelf, Sink};
use program_answer::{Answer, Told, answer_text};
use std::alloc::Global;

/// The greatest length of a program, in bytes.
const PROGRAM_LIMIT: usize = 65_536;

/// The bytes of a program's file within the limit, and of a longer one more bytes than that.
fn program_bytes<H: Shelf>(alloc: Global, shelf: &mut H, name: &str) -> Result<Vec<u8>, Outcome>
    ensures kept { (other : List ℕ) → H.told shelf.new other ≡ H.told shelf.old other }
    ensures later { (other : List ℕ) → H.faults shelf.old other ≤ H.faults shelf.new other }
    ensures same { IfSome (H.told shelf.old name.now) (λ file. IfOk result (λ bytes. IsReadOf file bytes.items)) }
    ensures stop { IfErr result (λ stop. (stop ≡ WantOfMemory) ⊎ ((stop ≡ FaultOf TheProgram) × Rose (H.faults shelf.old name.now) (H.faults shelf.new name.now))) }
{
    match file_bytes(alloc, shelf, name, PROGRAM_LIMIT, Which::Program) {
        Ok(bytes) => Ok(bytes),
        Err(stop) => Err(stop),
    }
}

/// The outcome of an answer.
fn outcome_told(answer: Answer) -> Outcome
    ensures { result ≡ told_answer answer }
{
    match answer {
        Answer::Shown => Outcome::Shown,
        Answer::Refused(refusal) => Outcome::Program(refusal),
    }
}

/// The answer for two files.
fn kast_told<H: Shelf>(alloc: Global, shelf: &mut H, job: &Job<'_>) -> Result<Told, Outcome>
    ensures told { IfOk result (λ told. IsAnswer (H.told shelf.old job.now.definition.now) (H.told shelf.old job.now.program.now) (told_answer told.answer) told.text.items) }
    ensures stop { IfErr result (IsStopped (H.told shelf.old job.now.definition.now)
        (Rose (H.faults shelf.old job.now.definition.now) (H.faults shelf.new job.now.definition.now))
        (Rose (H.faults shelf.old job.now.program.now) (H.faults shelf.new job.now.program.now))) }
{
    let definition = match assembly_at(alloc, shelf, job.definition) {
        Ok(definition) => definition,
        Err(stop) => return Err(stop),
    };
    let bytes = match program_bytes(alloc, shelf, job.program) {
        Ok(bytes) => bytes,
        Err(stop) => return Err(stop),
    };
    let Definition {
        grammar,
        tree,
        names,
        ..
    } = definition;
    let Ok(told) = answer_text(alloc, &grammar, names, tree.pgm_sort(), bytes.as_slice()) else {
        return Err(Outcome::Memory);
    };
    Ok(told)
}

/// The report of an answer, whose text is written.
fn report_told<O: Sink>(alloc: Global, out: &mut O, told: Told) -> Report
    ensures status { (result.status ≡ 6) ⊎ (result.status ≡ status_of result.outcome) }
    ensures same { result.outcome ≡ told_answer told.answer }
    ensures empty { (result.fired ≡ []) × (result.counts ≡ []) × (result.end ≡ None) }
    ensures took { result.status ≢ 6 → Took (O.taken out.old) (O.taken out.new) told.text.items }
    ensures front { result.status ≡ 6 → AppendsFront (O.taken out.old) (O.taken out.new) told.text.items }
    ensures fault { result.status ≡ 6 → Rose (O.faults out.old) (O.faults out.new) }
{
    let Told { answer, text } = told;
    let outcome = outcome_told(answer);
    let status = status_after(out, text.as_slice(), &outcome);
    refused(alloc, status, outcome)
}

/// The report of a program that is read: its term is written, or the line of a refusal.
pub fn kast_report<H: Shelf, O: Sink>(
    alloc: Global,
    shelf: &mut H,
    out: &mut O,
    job: &Job<'_>,
) -> Report
    ensures answer { is_answer result.outcome ≡ true → (text : List ℕ)
        × IsAnswer (H.told shelf.old job.now.definition.now) (H.told shelf.old job.now.program.now) result.outcome text
        × (result.status ≢ 6 → Took (O.taken out.old) (O.taken out.new) text)
        × (result.status ≡ 6 → AppendsFront (O.taken out.old) (O.taken out.new) text) }
    ensures stop { is_answer result.outcome ≡ false → IsStopped (H.told shelf.old job.now.definition.now)
        (Rose (H.faults shelf.old job.now.definition.now) (H.faults shelf.new job.now.definition.now))
        (Rose (H.faults shelf.old job.now.program.now) (H.faults shelf.new job.now.program.now)) result.outcome }
    ensures line { is_answer result.outcome ≡ false → result.status ≢ 6 → Took (O.taken out.old) (O.taken out.new) (text_of result.outcome) }
    ensures line_front { is_answer result.outcome ≡ false → result.status ≡ 6 → AppendsFront (O.taken out.old) (O.taken out.new) (text_of result.outcome) }
    ensures empty { (result.fired ≡ []) × (result.counts ≡ []) × (result.end ≡ None) }
    ensures status { (result.status ≡ 6) ⊎ (result.status ≡ status_of result.outcome) }
    ensures fault { result.status ≡ 6 → Rose (O.faults out.old) (O.faults out.new) }
{
    match kast_told(alloc, shelf, job) {
        Ok(told) => report_told(alloc, out, told),
        Err(stop) => report_refusal(alloc, out, stop),
    }
}
