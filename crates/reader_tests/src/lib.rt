//! Tests of the readers of definitions and programs, over their public calls.
#![tactic(auto)]

#[cfg(test)]
mod answers;
#[cfg(test)]
mod definitions;
#[cfg(test)]
mod grammars;
#[cfg(test)]
mod modules;
#[cfg(test)]
mod productions;
#[cfg(test)]
mod programs;
#[cfg(test)]
mod rows;
#[cfg(test)]
mod sentences;
#[cfg(test)]
mod sorting;
#[cfg(test)]
mod tables;
#[cfg(test)]
mod words;
