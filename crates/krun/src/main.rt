//! krun reads a definition of a language and a program, rewrites the program by the definition's rules, and prints how
//! many fired and the configuration reached, or prints the term that the program is read as.
#![tactic(auto)]

mod alone;
mod assembled;
mod cell_fault;
mod def_fault;
mod definition;
mod file;
mod job;
mod kast;
mod outcome;
mod outside;
mod report;
mod rule_fault;
mod rules;
#[cfg(test)]
mod samples;
#[cfg(test)]
mod tests;
mod texts;
mod top;

use alone::krun_alone;
use outcome::Outcome;
use outside::{FileShelf, StdSink};
use report::Report;
use std::alloc::Global;
use std::process::ExitCode;
use std::{env, io};

fn words(rt: &HostRuntime) -> io::Result<Vec<String>> {
    let mut words = Vec::new(rt.alloc());
    for word in env::args(rt)? {
        words.push(word)?;
    }
    Ok(words)
}

fn main(rt: HostRuntime) -> ExitCode {
    let Ok(words) = words(&rt) else {
        return ExitCode::from(outcome::MEMORY);
    };
    let mut shelf = FileShelf::new(&rt);
    let mut sink = StdSink::new(&rt);
    let report = krun_alone(rt.alloc(), words.as_slice(), &mut shelf, &mut sink);
    ExitCode::from(report.status)
}
