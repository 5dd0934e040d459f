//! The modules of a file put together: each import's module is found, and no module imports itself.
ghost use Rattle.std.specs.Prelude.{◌≡◌, ◌⊎◌, ◌<◌, ◌≤◌, true, length, map, MatchResult};
ghost use Rattle.import_order.specs.Imports.{AreWithin, HasNoCycle};
ghost use Rattle.file_reader.specs.Files.{are_different};
ghost use Rattle.module_reader.specs.declared.fault.ModuleFault.TheVariants.{NoModule, Memory};
ghost use Rattle.module_reader.specs.Joining.{AreNumbers, IsGraph, IsMissingAmong, IsMissingIn, IsCyclic, IsJoined, IsRefused};

use crate::fault::ModuleFault;
use crate::modules::Modules;
use crate::names::ModuleNames;
use file_reader::FileModules;
use import_order::first_on_cycle;
use k_terms::{Many, Text, copy_text};
use std::alloc::Global;

/// The fault that an import of this name is.
fn no_module(alloc: Global, name: &Text) -> ModuleFault
    ensures { (result ≡ Memory) ⊎ (result ≡ NoModule name.now) }
{
    match copy_text(alloc, name) {
        Ok(name) => ModuleFault::NoModule { name },
        Err(_) => ModuleFault::Memory,
    }
}

/// The numbers of the modules of these names.
fn import_numbers(
    alloc: Global,
    modules: &ModuleNames<'_>,
    imports: &[Text],
) -> Result<Many<usize>, ModuleFault>
    ensures { MatchResult result (AreNumbers modules.now imports.now) (IsMissingAmong modules.now imports.now) }
{
    let mut numbers = Vec::with_capacity(alloc, imports.len())?;
    for name in imports {
        let Some(number) = modules.number(name.as_slice()) else {
            return Err(no_module(alloc, name));
        };
        numbers.push(number)?;
    }
    Ok(Many::from_vec(numbers))
}

/// The numbers of the modules that each module imports.
fn import_graph(
    alloc: Global,
    modules: &ModuleNames<'_>,
    imports: &[Many<Text>],
) -> Result<Vec<Many<usize>>, ModuleFault>
    ensures { MatchResult result (λ graph. IsGraph modules.now imports.now graph.items) (IsMissingIn modules.now imports.now) }
{
    let mut graph = Vec::with_capacity(alloc, imports.len())?;
    for names in imports {
        graph.push(import_numbers(alloc, modules, names.as_slice())?)?;
    }
    Ok(graph)
}

/// Tells the first module of the text that imports itself, if there is one.
fn refuse_cycle(alloc: Global, names: &[Text], graph: &[Many<usize>]) -> Result<(), ModuleFault>
    requires within { AreWithin graph.now }
    requires same { length graph.now ≡ length names.now }
    ensures { MatchResult result (λ _. HasNoCycle graph.now) (IsCyclic names.now graph.now) }
{
    let Some(number) = first_on_cycle(alloc, graph)? else {
        return Ok(());
    };
    let name = copy_text(alloc, &names[number])?;
    Err(ModuleFault::ImportCycle { name })
}

/// Puts the modules of a file together.
pub fn join(alloc: Global, file: FileModules) -> Result<Modules, ModuleFault>
    requires some { 0 < length file.names }
    requires different { are_different file.names ≡ true }
    requires imports { length file.imports ≡ length file.names }
    requires sentences { length file.sentences ≡ length file.names }
    ensures { MatchResult result (IsJoined file) (IsRefused file.names file.imports) }
{
    let FileModules {
        names,
        imports,
        sentences,
    } = file;
    let modules = ModuleNames::new(alloc, names.as_slice())?;
    let graph = import_graph(alloc, &modules, imports.as_slice())?;
    refuse_cycle(alloc, names.as_slice(), &graph)?;
    Ok(Modules::new(sentences, graph))
}
