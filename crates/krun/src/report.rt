use crate::outcome::Outcome;
use k_terms::{Many, Numbers};
use live_config::{Fired, Live};

/// What a call of the program says: its exit status, its outcome, the instances fired in order, how many each worker
/// fired, the caller first, and the configuration reached, where a run ended.
#[derive(Debug, Drop)]
pub struct Report {
    pub status: u8,
    pub outcome: Outcome,
    pub fired: Many<Fired>,
    pub counts: Numbers,
    pub end: Option<Live>,
}
