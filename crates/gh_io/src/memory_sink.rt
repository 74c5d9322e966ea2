//! Sinks over memory, which tell their bytes.

ghost use Rattle.std.specs.Prelude.{◌≡◌, ◌≤◌, ◌<◌, ◌++◌, [], length, min};
ghost use Rattle.std.specs.Prelude.{IfOk, IfErr, OnOk, OnErr, IsErrOf, Some, true, false};

use crate::fault_plan::FaultPlan;
use crate::sink::{PutErr, Sink};
use std::alloc::Global;
use std::marker::Model;

/// A sink over memory that takes short pieces and some of whose puts fail.
#[derive(Debug, Drop)]
pub struct MemSink {
    taken: Vec<u8>,
    piece: usize,
    plan: FaultPlan,
}

impl Model for MemSink {
    ghost use Rattle.std.specs.Prelude.{◌<◌};
    ghost use Rattle.gh_io.specs.Memory.{SinkInMemory};

    ghost Value = { SinkInMemory };

    ghost view = { λ s. record { taken = s.taken.items; piece = s.piece; plan = s.plan } };

    ghost invariant = { λ s. 0 < s.piece };
}

impl MemSink {
    ghost use Rattle.gh_io.specs.Memory.{plan_of};

    /// Fails the puts whose number, from 1, stands in `failing`, and takes at most `piece` bytes a
    /// put.
    pub fn new(failing: Vec<u64>, piece: usize) -> MemSink
        requires { 0 < piece }
        ensures { result ≡ record { taken = []; piece = piece; plan = plan_of failing.items } }
    {
        let alloc = *failing.allocator();
        MemSink {
            taken: Vec::new(alloc),
            piece,
            plan: FaultPlan::new(failing),
        }
    }

    /// The bytes taken so far.
    pub fn bytes(&self) -> &[u8]
        ensures { result.now ≡ self.now.taken }
    {
        self.taken.as_slice()
    }
}

impl Sink for MemSink {
    ghost use Rattle.gh_io.specs.Memory.{fails_next, after_put};

    ghost faults = { λ sink. sink.plan.faults };

    ghost taken = { λ sink. Some sink.taken };

    ghost is_sure = { λ _. false };

    fn put(&mut self, _alloc: Global, piece: &[u8]) -> Result<usize, PutErr>
        requires { 0 < length piece.now }
        ensures some { IfOk result (λ count. 0 < count) }
        ensures count { IfOk result (λ count. count ≡ min (length piece.now) self.old.piece) }
        ensures ok { OnOk result (fails_next self.old.plan ≡ false) }
        ensures failed { IsErrOf result PutErr.Failed → fails_next self.old.plan ≡ true }
        ensures after { self.new ≡ after_put self.old piece.now result }
        ensures never_falls { self.old.plan.faults ≤ self.new.plan.faults }
    {
        if self.plan.fails_next() {
            self.plan.count(true);
            return Err(PutErr::Failed);
        }
        let count = piece.len().min(self.piece);
        self.taken.extend_from_slice(&piece[..count])?;
        self.plan.count(false);
        Ok(count)
    }
}

/// A sink over memory that never fails and takes each piece whole.
#[derive(Debug, Drop)]
pub struct SureSink {
    taken: Vec<u8>,
}

impl Model for SureSink {
    ghost use Rattle.std.specs.Prelude.{List, ℕ};

    ghost Value = { List ℕ };

    ghost view = { λ s. s.taken.items };
}

impl SureSink {
    /// A sink that has taken nothing.
    pub fn new(alloc: Global) -> SureSink
        ensures { result ≡ [] }
    {
        SureSink {
            taken: Vec::new(alloc),
        }
    }

    /// The bytes taken so far.
    pub fn bytes(&self) -> &[u8]
        ensures { result.now ≡ self.now }
    {
        self.taken.as_slice()
    }
}

impl Sink for SureSink {
    ghost faults = { λ _. 0 };

    ghost taken = { λ sink. Some sink };

    ghost is_sure = { λ _. true };

    fn put(&mut self, _alloc: Global, piece: &[u8]) -> Result<usize, PutErr>
        requires { 0 < length piece.now }
        ensures whole { IfOk result (λ count. count ≡ length piece.now) }
        ensures taken { OnOk result (self.new ≡ self.old ++ piece.now) }
        ensures memory { IfErr result (λ e. e ≡ PutErr.NoMemory) }
        ensures err { OnErr result (self.new ≡ self.old) }
    {
        self.taken.extend_from_slice(piece)?;
        Ok(piece.len())
    }
}
