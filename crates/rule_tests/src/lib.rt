//! Tests of the readers of rules, over their public calls.
#![tactic(auto)]

#[cfg(test)]
mod cells;
#[cfg(test)]
mod contents;
#[cfg(test)]
mod drafts;
#[cfg(test)]
mod lines;
#[cfg(test)]
mod parts;
#[cfg(test)]
mod readings;
#[cfg(test)]
mod strict;
#[cfg(test)]
mod tokens;
