ghost use Rattle.std.specs.Prelude.{◌≡◌, ◌≤◌, ◌⊎◌, length, IfOk, IfErr, MatchResult};
ghost use Rattle.k_lexer.specs.Lexing.{AreTokens};
ghost use Rattle.production_reader.specs.Lexemes.{lexemes};
ghost use Rattle.file_reader.specs.Reads.{IsFileStop};
ghost use Rattle.module_reader.specs.declared.fault.ModuleFault.TheVariants.{Memory};
ghost use Rattle.module_reader.specs.declared.fault.ModuleFault.{ModuleFault as Fault};
ghost use Rattle.module_reader.specs.Modules.{Imported, IsModules};
ghost use Rattle.module_reader.specs.Faults.{IsFault, place_of, fault_by};

use crate::fault::ModuleFault;
use crate::imports::join;
use crate::modules::Modules;
use file_reader::{FileStop, read_file};
use k_lexer::Token;
use std::alloc::Global;

/// The place of the token of a number, and behind the last one the end of the text.
fn place(text: &[u8], tokens: &[Token], at: usize) -> usize
    requires { at ≤ length tokens.now }
    ensures { result ≡ place_of text.now tokens.now at }
{
    match tokens.get(at) {
        Some(token) => token.start,
        None => text.len(),
    }
}

/// The fault of a text that was not read as a file.
fn stop_fault(text: &[u8], tokens: &[Token], stop: FileStop) -> ModuleFault
    requires { IsFileStop (lexemes text.now tokens.now) stop }
    ensures { result ≡ fault_by text.now tokens.now stop }
{
    match stop {
        FileStop::Expected { at } => ModuleFault::Expected {
            at: place(text, tokens, at),
        },
        FileStop::TwoModules { name } => ModuleFault::TwoModules { name },
        FileStop::Memory => ModuleFault::Memory,
    }
}

/// Reads the modules of a definition's text from its tokens.
pub fn read_modules(alloc: Global, text: &[u8], tokens: &[Token]) -> Result<Modules, ModuleFault>
    requires { AreTokens text.now tokens.now }
    ensures ok { IfOk result (λ modules. IsModules text.now tokens.now modules) }
    ensures fault { IfErr result (λ fault. (fault ≡ Memory) ⊎ IsFault text.now tokens.now fault) }
    ensures exact { (modules : Imported) → IsModules text.now tokens.now modules
        → MatchResult result (λ it. it ≡ modules) (λ fault. fault ≡ Memory) }
    ensures exact_fault { (fault : Fault) → IsFault text.now tokens.now fault
        → MatchResult result (λ it. ⊥) (λ other. (other ≡ Memory) ⊎ (other ≡ fault)) }
{
    match read_file(alloc, text, tokens) {
        Ok(file) => join(alloc, file),
        Err(stop) => Err(stop_fault(text, tokens, stop)),
    }
}
