use crate::listing::is_listed;
use crate::mem_sink::MemSink;
use flow_io::{Failed, Sink};
use std::alloc::{AllocError, Global};
use std::marker::Model;

/// A sink over memory that fails at the listed calls of `write`, counted from 0, and is a
/// `MemSink` at all others. A clause sees it as that sink, the list, and how many calls there were
/// (the count stays at its greatest value).
#[derive(Drop)]
pub struct FaultySink {
    sink: MemSink,
    fail_at: Vec<u32>,
    calls: u64,
}

impl Model for FaultySink {
    ghost use Rattle.test_doubles.specs.Faults.{FaultyStore};

    ghost Value = { FaultyStore };

    ghost view = { λ s. record { store = s.sink; fail_at = s.fail_at.items; calls = s.calls } };
}

impl FaultySink {
    ghost use Rattle.std.specs.Prelude.{◌≡◌, ◌≤◌, [], IfOk, length};

    /// An empty sink with room for so many bytes, which fails at the calls of these numbers.
    pub fn new(alloc: Global, room: usize, fail_at: Vec<u32>) -> Result<FaultySink, AllocError>
        ensures { IfOk result (λ s. s ≡ record {
          store = record { bytes = []; room = room; faults = 0 };
          fail_at = fail_at.items;
          calls = 0;
        }) }
    {
        let sink = MemSink::new(alloc, room)?;
        Ok(FaultySink {
            sink,
            fail_at,
            calls: 0,
        })
    }

    /// The bytes that were written, in order.
    pub fn bytes(&self) -> &[u8]
        ensures held { result.now ≡ self.now.store.bytes }
        ensures fits { length self.now.store.bytes ≤ self.now.store.room }
    {
        self.sink.bytes()
    }
}

impl Sink for FaultySink {
    ghost use Rattle.std.specs.Prelude.{◌≡◌, ◌+◌, ◌-◌, ◌^◌, ◌<◌, ◌≤◌, ◌↔◌, ◌⊎◌, IfOk, OnErr, IsErr, is_ok, if◌then◌else◌, Some, min, length, Contains};
    ghost use Rattle.flow_io.specs.Sink.{TakesFront};

    ghost held = { λ s. Some s.store.bytes };

    ghost faults = { λ s. s.store.faults };

    fn write(&mut self, piece: &[u8]) -> Result<usize, Failed>
        requires { self.old.store.faults < 2 ^ 64 - 1 }
        ensures taken { IfOk result (TakesFront (Some self.old.store.bytes) (Some self.new.store.bytes) piece.now) }
        ensures count { IfOk result (λ n. n ≡ min (length piece.now) (self.old.store.room - length self.old.store.bytes)) }
        ensures listed_or_full { IsErr result ↔ (Contains self.old.fail_at self.old.calls
            ⊎ (0 < length piece.now) × (self.old.store.room ≤ length self.old.store.bytes)) }
        ensures bytes_kept { OnErr result (self.new.store.bytes ≡ self.old.store.bytes) }
        ensures room_kept { self.new.store.room ≡ self.old.store.room }
        ensures list_kept { self.new.fail_at ≡ self.old.fail_at }
        ensures counted { self.new.calls ≡ min (self.old.calls + 1) (2 ^ 64 - 1) }
        ensures faults { self.new.store.faults ≡ (if is_ok result then self.old.store.faults else self.old.store.faults + 1) }
    {
        let call = self.calls;
        self.calls = call.saturating_add(1);
        if is_listed(&self.fail_at, call) {
            self.sink.count_fault();
            return Err(Failed);
        }
        self.sink.write(piece)
    }
}
