//! The definition of the small form that a file holds.
ghost use Rattle.std.specs.Prelude.{◌≡◌, ◌≢◌, ◌≤◌, List, ℕ, true, false, IfSome, IfOk, IfErr};
ghost use Rattle.small_form.specs.declared.small.Small.{Small as Definition};
ghost use Rattle.small_form.specs.Small.{IsSmall, IsSmallText, HaveLabels, unplaced};
ghost use Rattle.krun.specs.Outcome.{is_stop};
ghost use Rattle.context_transform.specs.Told.{wants_memory};
ghost use Rattle.context_transform.specs.Assembling.{IsOnlyFault};
ghost use Rattle.krun.specs.Refusals.{HasNoRefusal};
ghost use Rattle.krun.specs.Causes.{IsUnbuilt, IsCauseOf};
ghost use Rattle.k_edge.specs.Faults.{Rose};
ghost use Rattle.context_transform.specs.declared.fault.DefFault.{DefFault as Fault};
ghost use Rattle.program_reader.specs.declared.refusal.ReadRefusal.{ReadRefusal};
ghost use Rattle.krun.specs.declared.outcome.Outcome.TheVariants.{Usage as WantOfWords, Definition as DefinitionRefused, Unbuilt as NotOfSmallForm, Program as ProgramRefused, ReadFault as FaultOf};
ghost use Rattle.krun.specs.declared.outcome.Which.TheVariants.{Definition as TheDefinition, Program as TheProgram};

use crate::assembled::{assembly_of, definition_bytes};
use crate::outcome::Outcome;
use k_edge::Shelf;
use small_form::{Small, read_definition};
use std::alloc::Global;

/// The definition of the small form that the bytes are.
fn small_of(alloc: Global, bytes: &[u8]) -> Result<Small, Outcome>
    requires { HasNoRefusal bytes.now }
    ensures read { IfOk result (λ small. IsSmallText bytes.now small) }
    ensures labels { IfOk result (λ small. HaveLabels small.productions) }
    ensures only_one { IfOk result (λ small. (d : Definition) → IsSmallText bytes.now d → unplaced small ≡ unplaced d) }
    ensures cause { IfErr result (IsCauseOf bytes.now) }
{
    let Some(small) = read_definition(alloc, bytes)? else {
        return Err(Outcome::Unbuilt);
    };
    Ok(small)
}

/// The definition of the small form that the bytes are, where nothing refuses them.
fn definition_of(alloc: Global, bytes: &[u8]) -> Result<Small, Outcome>
    ensures accepted { IfOk result (λ _. HasNoRefusal bytes.now) }
    ensures read { IfOk result (λ small. IsSmallText bytes.now small) }
    ensures labels { IfOk result (λ small. HaveLabels small.productions) }
    ensures only_one { IfOk result (λ small. (d : Definition) → IsSmallText bytes.now d → unplaced small ≡ unplaced d) }
    ensures cause { IfErr result (IsCauseOf bytes.now) }
{
    match assembly_of(alloc, bytes) {
        Ok(_) => small_of(alloc, bytes),
        Err(stop) => Err(stop),
    }
}

/// The definition that a file holds.
pub fn definition_at<H: Shelf>(alloc: Global, shelf: &mut H, name: &str) -> Result<Small, Outcome>
    ensures kept { (other : List ℕ) → H.told shelf.new other ≡ H.told shelf.old other }
    ensures accepted { IfSome (H.told shelf.old name.now) (λ file. IfOk result (λ _. HasNoRefusal file)) }
    ensures read { IfSome (H.told shelf.old name.now) (λ file. IfOk result (λ small. IsSmallText file small)) }
    ensures small { IfOk result (λ small. IsSmall small) }
    ensures labels { IfOk result (λ small. HaveLabels small.productions) }
    ensures only_one { IfSome (H.told shelf.old name.now) (λ file.
        IfOk result (λ small. (d : Definition) → IsSmallText file d → unplaced small ≡ unplaced d)) }
    ensures definition { (fault : Fault) → IfErr result (λ refusal. refusal ≡ DefinitionRefused fault →
        IfSome (H.told shelf.old name.now) (λ file. IsOnlyFault file fault)) }
    ensures never_memory { (fault : Fault) → IfErr result (λ refusal. refusal ≡ DefinitionRefused fault → wants_memory fault ≡ false) }
    ensures unbuilt { IfErr result (λ refusal. refusal ≡ NotOfSmallForm → IfSome (H.told shelf.old name.now) IsUnbuilt) }
    ensures refused { IfErr result (λ refusal. is_stop refusal ≡ true) }
    ensures words { IfErr result (λ refusal. refusal ≢ WantOfWords) }
    ensures later { (other : List ℕ) → H.faults shelf.old other ≤ H.faults shelf.new other }
    ensures only { IfErr result (λ refusal. refusal ≢ FaultOf TheProgram) }
    ensures no_program { (cause : ReadRefusal) → IfErr result (λ refusal. refusal ≢ ProgramRefused cause) }
    ensures fault { IfErr result (λ refusal. refusal ≡ FaultOf TheDefinition →
        Rose (H.faults shelf.old name.now) (H.faults shelf.new name.now)) }
{
    let bytes = definition_bytes(alloc, shelf, name)?;
    definition_of(alloc, bytes.as_slice())
}
