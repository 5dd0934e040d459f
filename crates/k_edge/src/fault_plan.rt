ghost use Rattle.std.specs.Prelude.{◌≡◌, ◌+◌, ◌≤◌, ◌==◌};
ghost use Rattle.std.specs.List.{list_any};
ghost use Rattle.k_edge.specs.Faults.{counted, fails_next};

use crate::Failed;
use std::marker::Model;

/// The calls of a fake that are to fail, and how many calls and faults it has had. Both counts stand
/// still at 2^64 - 1.
#[derive(Debug, Drop)]
pub(crate) struct FaultPlan {
    fail: Vec<u64>,
    calls: u64,
    faults: u64,
}

impl Model for FaultPlan {
    ghost use Rattle.k_edge.specs.Faults.{Plan};

    ghost Value = { Plan };

    ghost view = { λ it. record { fail = it.fail.items; calls = it.calls; faults = it.faults } };
}

impl FaultPlan {
    pub(crate) fn new(fail: Vec<u64>) -> FaultPlan
        ensures { result ≡ record { fail = fail.items; calls = 0; faults = 0 } }
    {
        FaultPlan {
            fail,
            calls: 0,
            faults: 0,
        }
    }

    /// Counts a call, and says whether it is to fail.
    pub(crate) fn count_call(&mut self) -> bool
        ensures listed { result ≡ fails_next self.old }
        ensures after { self.new ≡ record self.old { calls = counted self.old.calls } }
    {
        let fails = is_listed(&self.fail, self.calls);
        self.calls = self.calls.saturating_add(1);
        fails
    }

    /// Counts a fault.
    pub(crate) fn count_fault(&mut self) -> Failed
        ensures after { self.new ≡ record self.old { faults = counted self.old.faults } }
        ensures later { self.old.faults ≤ self.new.faults }
    {
        self.faults = self.faults.saturating_add(1);
        Failed
    }
}

/// Whether the number of the call after so many is listed. No list holds the number after the greatest.
fn is_listed(fail: &[u64], calls: u64) -> bool
    ensures { result ≡ list_any (λ number. number == calls + 1) fail.now }
{
    match calls.checked_add(1) {
        Some(number) => fail.contains(&number),
        None => false,
    }
}
