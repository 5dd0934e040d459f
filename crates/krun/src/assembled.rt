//! The definition that a file holds, whole.
ghost use Rattle.std.specs.Prelude.{◌≡◌, ◌≢◌, ◌≤◌, List, ℕ, Some, length, true, false, IfSome, IfOk, IfErr};
ghost use Rattle.k_edge.specs.Faults.{Rose};
ghost use Rattle.context_transform.specs.declared.fault.DefFault.{DefFault as Fault};
ghost use Rattle.context_transform.specs.Assembling.{assembly_of as assembly, IsOnlyAssembly, IsOnlyFault};
ghost use Rattle.context_transform.specs.Told.{wants_memory};
ghost use Rattle.program_reader.specs.declared.refusal.ReadRefusal.{ReadRefusal};
ghost use Rattle.krun.specs.declared.outcome.Outcome.TheVariants.{Usage as WantOfWords, Definition as DefinitionRefused, Unbuilt as NotOfSmallForm, Program as ProgramRefused, ReadFault as FaultOf};
ghost use Rattle.krun.specs.declared.outcome.Which.TheVariants.{Definition as TheDefinition, Program as TheProgram};
ghost use Rattle.krun.specs.Outcome.{is_stop};
ghost use Rattle.krun.specs.Assembled.{FileDefines, IsUndefined};

use crate::file::file_bytes;
use crate::outcome::{Outcome, Which};
use context_transform::{DefFault, Definition, assemble};
use k_edge::Shelf;
use std::alloc::Global;

/// The greatest length of a definition, in bytes.
const DEFINITION_LIMIT: usize = 1_048_576;

/// The bytes of a definition's file, which are not too many.
pub(crate) fn definition_bytes<H: Shelf>(
    alloc: Global,
    shelf: &mut H,
    name: &str,
) -> Result<Vec<u8>, Outcome>
    ensures kept { (other : List ℕ) → H.told shelf.new other ≡ H.told shelf.old other }
    ensures whole { IfSome (H.told shelf.old name.now) (λ file. IfOk result (λ bytes. bytes.items ≡ file)) }
    ensures within { IfOk result (λ bytes. length bytes.items ≤ 1048576) }
    ensures definition { (fault : Fault) → IfErr result (λ refusal. refusal ≡ DefinitionRefused fault →
        IfSome (H.told shelf.old name.now) (λ file. IsOnlyFault file fault)) }
    ensures never_memory { (fault : Fault) → IfErr result (λ refusal. refusal ≡ DefinitionRefused fault → wants_memory fault ≡ false) }
    ensures small_form { IfErr result (λ refusal. refusal ≢ NotOfSmallForm) }
    ensures refused { IfErr result (λ refusal. is_stop refusal ≡ true) }
    ensures words { IfErr result (λ refusal. refusal ≢ WantOfWords) }
    ensures later { (other : List ℕ) → H.faults shelf.old other ≤ H.faults shelf.new other }
    ensures only { IfErr result (λ refusal. refusal ≢ FaultOf TheProgram) }
    ensures no_program { (cause : ReadRefusal) → IfErr result (λ refusal. refusal ≢ ProgramRefused cause) }
    ensures fault { IfErr result (λ refusal. refusal ≡ FaultOf TheDefinition →
        Rose (H.faults shelf.old name.now) (H.faults shelf.new name.now)) }
{
    let bytes = file_bytes(alloc, shelf, name, DEFINITION_LIMIT, Which::Definition)?;
    if bytes.len() > DEFINITION_LIMIT {
        return Err(Outcome::Definition(DefFault::TooBig {
            bytes: DEFINITION_LIMIT as u64,
        }));
    }
    Ok(bytes)
}

/// What bytes define.
pub(crate) fn assembly_of(alloc: Global, bytes: &[u8]) -> Result<Definition, Outcome>
    ensures ok { IfOk result (λ whole. IsOnlyAssembly bytes.now (assembly whole)) }
    ensures stop { IfErr result (IsUndefined (Some bytes.now) ⊥) }
{
    match assemble(alloc, bytes) {
        Ok(definition) => Ok(definition),
        Err(fault) => Err(Outcome::from(fault)),
    }
}

/// What a file defines.
pub fn assembly_at<H: Shelf>(
    alloc: Global,
    shelf: &mut H,
    name: &str,
) -> Result<Definition, Outcome>
    ensures kept { (other : List ℕ) → H.told shelf.new other ≡ H.told shelf.old other }
    ensures later { (other : List ℕ) → H.faults shelf.old other ≤ H.faults shelf.new other }
    ensures ok { IfOk result (λ whole. FileDefines (H.told shelf.old name.now) (assembly whole)) }
    ensures stop { IfErr result (IsUndefined (H.told shelf.old name.now) (Rose (H.faults shelf.old name.now) (H.faults shelf.new name.now))) }
{
    let bytes = match definition_bytes(alloc, shelf, name) {
        Ok(bytes) => bytes,
        Err(stop) => return Err(stop),
    };
    assembly_of(alloc, bytes.as_slice())
}
