//! Tests of the readers of configurations, and of completion and assembly, over their public calls.
#![tactic(auto)]

#[cfg(test)]
mod completions;
#[cfg(test)]
mod config;
#[cfg(test)]
mod contents;
#[cfg(test)]
mod forms;
#[cfg(test)]
mod rules;
#[cfg(test)]
mod tokens;
#[cfg(test)]
mod transform;
#[cfg(test)]
mod trees;
