//! The rules of a definition, as lines.
ghost use Rattle.std.specs.Prelude.{◌≡◌, ◌≢◌, ◌⊎◌, [], List, ℕ, None, IfSome, IfOk, IfErr};
ghost use Rattle.k_edge.specs.Faults.{Rose};
ghost use Rattle.whole_files.specs.Writing.{AppendsFront};
ghost use Rattle.krun.specs.Outcome.{status_of, text_of};
ghost use Rattle.krun.specs.Headline.{Took};
ghost use Rattle.krun.specs.Assembled.{IsUndefined};
ghost use Rattle.krun.specs.Rules.{ListsOnly};
ghost use Rattle.krun.specs.declared.outcome.Outcome.TheVariants.{Shown as WasShown};

use crate::assembled::assembly_at;
use crate::outcome::Outcome;
use crate::report::Report;
use crate::top::{refused, report_refusal, status_after};
use k_edge::{Shelf, Sink};
use rule_listing::rule_lines;
use std::alloc::Global;

/// The lines of the rules of the definition that a file holds.
fn lines_at<H: Shelf>(alloc: Global, shelf: &mut H, name: &str) -> Result<Vec<u8>, Outcome>
    ensures ok { IfOk result (λ lines. IfSome (H.told shelf.old name.now) (λ bytes. ListsOnly bytes lines.items)) }
    ensures stop { IfErr result (IsUndefined (H.told shelf.old name.now) (Rose (H.faults shelf.old name.now) (H.faults shelf.new name.now))) }
{
    let definition = match assembly_at(alloc, shelf, name) {
        Ok(definition) => definition,
        Err(stop) => return Err(stop),
    };
    let (cells, rules) = (definition.tree.shapes(), definition.defs.rules());
    let Ok(lines) = rule_lines(alloc, &definition.grammar, cells, rules) else {
        return Err(Outcome::Memory);
    };
    Ok(lines)
}

/// The report of lines, which are written.
fn report_lines<O: Sink>(alloc: Global, out: &mut O, lines: &[u8]) -> Report
    ensures status { (result.status ≡ 6) ⊎ (result.status ≡ status_of result.outcome) }
    ensures same { result.outcome ≡ WasShown }
    ensures empty { (result.fired ≡ []) × (result.counts ≡ []) × (result.end ≡ None) }
    ensures took { result.status ≢ 6 → Took (O.taken out.old) (O.taken out.new) lines.now }
    ensures front { result.status ≡ 6 → AppendsFront (O.taken out.old) (O.taken out.new) lines.now }
    ensures fault { result.status ≡ 6 → Rose (O.faults out.old) (O.faults out.new) }
{
    let outcome = Outcome::Shown;
    let status = status_after(out, lines, &outcome);
    refused(alloc, status, outcome)
}

/// The report of a definition whose rules are listed: their lines are written, or the line of a refusal.
pub fn rules_report<H: Shelf, O: Sink>(
    alloc: Global,
    shelf: &mut H,
    out: &mut O,
    name: &str,
) -> Report
    ensures lines { result.outcome ≡ WasShown → (lines : List ℕ)
        × IfSome (H.told shelf.old name.now) (λ bytes. ListsOnly bytes lines)
        × (result.status ≢ 6 → Took (O.taken out.old) (O.taken out.new) lines)
        × (result.status ≡ 6 → AppendsFront (O.taken out.old) (O.taken out.new) lines) }
    ensures stop { result.outcome ≢ WasShown → IsUndefined (H.told shelf.old name.now)
        (Rose (H.faults shelf.old name.now) (H.faults shelf.new name.now)) result.outcome }
    ensures line { result.outcome ≢ WasShown → result.status ≢ 6 → Took (O.taken out.old) (O.taken out.new) (text_of result.outcome) }
    ensures line_front { result.outcome ≢ WasShown → result.status ≡ 6 → AppendsFront (O.taken out.old) (O.taken out.new) (text_of result.outcome) }
    ensures empty { (result.fired ≡ []) × (result.counts ≡ []) × (result.end ≡ None) }
    ensures status { (result.status ≡ 6) ⊎ (result.status ≡ status_of result.outcome) }
    ensures fault { result.status ≡ 6 → Rose (O.faults out.old) (O.faults out.new) }
{
    match lines_at(alloc, shelf, name) {
        Ok(lines) => report_lines(alloc, out, lines.as_slice()),
        Err(stop) => report_refusal(alloc, out, stop),
    }
}
