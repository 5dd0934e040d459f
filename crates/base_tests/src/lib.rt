//! Tests of values, texts, files, rules and configurations, over their public calls.
#![tactic(auto)]

#[cfg(test)]
mod cells;
#[cfg(test)]
mod edge;
#[cfg(test)]
mod files;
#[cfg(test)]
mod lexing;
#[cfg(test)]
mod operators;
#[cfg(test)]
mod orders;
#[cfg(test)]
mod printing;
#[cfg(test)]
mod rules;
#[cfg(test)]
mod small;
#[cfg(test)]
mod terms;
