ghost use Rattle.std.specs.Prelude.{◌≡◌, ◌++◌, IfOk};
ghost use Rattle.module_reader.specs.Modules.{AreClosureOf, IsOrdered};

use crate::copies::copy_sentence;
use file_reader::Sentence;
use import_order::closure;
use k_terms::{Many, Memory};
use std::alloc::Global;
use std::marker::Model;

/// The modules of a file, by their order in the text: the sentences of each, and the numbers of those that it imports.
#[derive(Debug, Drop)]
pub struct Modules {
    sentences: Many<Many<Sentence>>,
    graph: Vec<Many<usize>>,
}

impl Model for Modules {
    ghost use Rattle.module_reader.specs.Modules.{Imported, IsOrdered};

    ghost Value = { Imported };

    ghost view = { λ modules. record { sentences = modules.sentences; graph = modules.graph.items } };

    ghost invariant = { λ modules. IsOrdered record { sentences = modules.sentences; graph = modules.graph.items } };
}

/// Adds copies of sentences.
fn add_copies(alloc: Global, all: &mut Vec<Sentence>, sentences: &[Sentence]) -> Result<(), Memory>
    ensures { IfOk result (λ _. all.new.items ≡ all.old.items ++ sentences.now) }
{
    for sentence in sentences {
        all.push(copy_sentence(alloc, sentence)?)?;
    }
    Ok(())
}

impl Modules {
    pub(crate) fn new(sentences: Many<Many<Sentence>>, graph: Vec<Many<usize>>) -> Modules
        requires { IsOrdered record { sentences = sentences; graph = graph.items } }
        ensures { result ≡ record { sentences = sentences; graph = graph.items } }
    {
        Modules { sentences, graph }
    }

    /// The sentences of the definition: those of the last module's import closure, imported modules before the importing
    /// one, in the order of the imports, each module once.
    pub fn sentences(&self, alloc: Global) -> Result<Vec<Sentence>, Memory>
        ensures { IfOk result (λ sentences. AreClosureOf self.now sentences.items) }
    {
        let order = closure(alloc, &self.graph, self.graph.len() - 1)?;
        let mut all = Vec::new(alloc);
        for module in &order {
            let Some(sentences) = self.sentences.get(*module) else {
                continue;
            };
            add_copies(alloc, &mut all, sentences.as_slice())?;
        }
        Ok(all)
    }
}
