ghost use Rattle.std.specs.Prelude.{◌≡◌, ◌+◌, ◌-◌, ◌<◌, ◌≤◌, ◌==◌, ◌||◌, [], Some, length, min, IfOk, OnErr, is_err};
ghost use Rattle.std.specs.Io.KnownBytes.{WriteAppends};
ghost use Rattle.k_edge.specs.Faults.{Rose, fails_next, after_call};
ghost use Rattle.k_edge.specs.MemSink.{taken_at_once};

use crate::fault_plan::FaultPlan;
use crate::{Failed, Sink};
use std::alloc::{AllocError, Global};
use std::marker::Model;

/// Bytes in memory that are written piece by piece, with calls that are made to fail.
#[derive(Debug, Drop)]
pub struct MemSink {
    bytes: Vec<u8>,
    room: usize,
    piece: usize,
    plan: FaultPlan,
}

impl Model for MemSink {
    ghost use Rattle.std.specs.Prelude.{◌+◌, ◌≤◌, vec_len, vec_capacity};
    ghost use Rattle.k_edge.specs.MemSink.{SinkState};

    ghost Value = { SinkState };

    ghost view = { λ it. record { bytes = it.bytes.items; room = it.room; piece = it.piece; plan = it.plan } };

    ghost invariant = { λ it. (1 ≤ it.piece) × (vec_len it.bytes + it.room ≤ vec_capacity it.bytes) };
}

impl MemSink {
    /// How many bytes a new sink has room for.
    pub const ROOM: usize = 1_048_576;

    /// An empty sink with room for `ROOM` bytes, which it takes now. A call of `write` takes at most
    /// `piece` bytes, and the calls whose numbers, counted from 1, stand in `fail` are to fail, in any
    /// order. Its error is want of memory.
    pub fn new(alloc: Global, piece: usize, fail: Vec<u64>) -> Result<MemSink, AllocError>
        requires { 1 ≤ piece }
        ensures { IfOk result (λ sink. sink ≡ record {
          bytes = [];
          room = Self.ROOM;
          piece = piece;
          plan = record { fail = fail.items; calls = 0; faults = 0 };
        }) }
    {
        let bytes = Vec::with_capacity(alloc, Self::ROOM)?;
        Ok(MemSink {
            bytes,
            room: Self::ROOM,
            piece,
            plan: FaultPlan::new(fail),
        })
    }

    /// The bytes that were taken so far.
    pub fn bytes(&self) -> &[u8]
        ensures { result.now ≡ self.now.bytes }
    {
        &self.bytes
    }
}

/// All bytes are told. A call takes no memory.
impl Sink for MemSink {
    ghost taken = { λ it. Some it.bytes };

    ghost faults = { λ it. it.plan.faults };

    fn write(&mut self, buf: &[u8]) -> Result<usize, Failed>
        requires { 0 < length buf.now }
        ensures bound { IfOk result (λ n. (1 ≤ n) × (n ≤ length buf.now)) }
        ensures bytes { WriteAppends (Some self.old.bytes) (Some self.new.bytes) result buf.now }
        ensures later { self.old.plan.faults ≤ self.new.plan.faults }
        ensures cause { OnErr result (Rose self.old.plan.faults self.new.plan.faults) }

        // It fails at the listed calls and where no room is left, and at no others.
        ensures fails { is_err result ≡ (fails_next self.old.plan || self.old.room == 0) }
        ensures plan { self.new.plan ≡ after_call self.old.plan (is_err result) }

        // As many bytes are taken as a call takes and fit.
        ensures count { IfOk result (λ n. n ≡ taken_at_once self.old (length buf.now)) }
        ensures room { self.new.room + length self.new.bytes ≡ self.old.room + length self.old.bytes }
        ensures piece { self.new.piece ≡ self.old.piece }
    {
        if self.plan.count_call() || self.room == 0 {
            return Err(self.plan.count_fault());
        }
        let count = buf.len().min(self.piece).min(self.room);
        let Ok(()) = self.bytes.extend_from_slice(&buf[..count]) else {
            unreachable!()
        };
        self.room -= count;
        Ok(count)
    }
}
