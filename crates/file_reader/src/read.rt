use crate::sentence::Sentence;
use k_terms::Text;

/// What is read of a module: the name of a module that it imports, or a sentence.
#[derive(Debug, Drop)]
pub(crate) enum Read {
    Import(Text),
    Other(Sentence),
}
