use flow_io::{Failed, Sink};
use std::alloc::{AllocError, Global};
use std::marker::Model;

/// A sink over memory of a fixed room, which tells its bytes. It takes as much of a piece as it
/// has room for, and asks for no memory after `new`. A clause sees it as the bytes held, the room
/// for all of them, and how many writes have failed.
#[derive(Drop)]
pub struct MemSink {
    bytes: Vec<u8>,
    room: usize,
    faults: u64,
}

impl Model for MemSink {
    ghost use Rattle.std.specs.Prelude.{◌≤◌, vec_len, vec_capacity};
    ghost use Rattle.test_doubles.specs.Faults.{Store};

    ghost Value = { Store };

    ghost view = { λ s. record { bytes = s.bytes.items; room = s.room; faults = s.faults } };

    ghost invariant = { λ s. (vec_len s.bytes ≤ s.room) × (s.room ≤ vec_capacity s.bytes) };
}

impl MemSink {
    ghost use Rattle.std.specs.Prelude.{◌≡◌, ◌+◌, ◌-◌, ◌^◌, ◌<◌, ◌≤◌, [], IfOk, length};

    /// An empty sink with room for so many bytes.
    pub fn new(alloc: Global, room: usize) -> Result<MemSink, AllocError>
        ensures { IfOk result (λ s. s ≡ record { bytes = []; room = room; faults = 0 }) }
    {
        let bytes = Vec::with_capacity(alloc, room)?;
        Ok(MemSink {
            bytes,
            room,
            faults: 0,
        })
    }

    /// The bytes that were written, in order.
    pub fn bytes(&self) -> &[u8]
        ensures held { result.now ≡ self.now.bytes }
        ensures fits { length self.now.bytes ≤ self.now.room }
    {
        &self.bytes
    }

    pub(crate) fn count_fault(&mut self)
        requires { self.old.faults < 2 ^ 64 - 1 }
        ensures { self.new ≡ record self.old { faults = self.old.faults + 1 } }
    {
        self.faults += 1;
    }
}

impl Sink for MemSink {
    ghost use Rattle.std.specs.Prelude.{◌≡◌, ◌+◌, ◌-◌, ◌^◌, ◌<◌, ◌≤◌, ◌↔◌, IfOk, OnErr, IsErr, is_ok, if◌then◌else◌, Some, min, length};
    ghost use Rattle.flow_io.specs.Sink.{TakesFront};

    ghost held = { λ s. Some s.bytes };

    ghost faults = { λ s. s.faults };

    fn write(&mut self, piece: &[u8]) -> Result<usize, Failed>
        requires { self.old.faults < 2 ^ 64 - 1 }
        ensures taken { IfOk result (TakesFront (Some self.old.bytes) (Some self.new.bytes) piece.now) }
        ensures count { IfOk result (λ n. n ≡ min (length piece.now) (self.old.room - length self.old.bytes)) }
        ensures full { IsErr result ↔ (0 < length piece.now) × (self.old.room ≤ length self.old.bytes) }
        ensures bytes_kept { OnErr result (self.new.bytes ≡ self.old.bytes) }
        ensures room_kept { self.new.room ≡ self.old.room }
        ensures faults { self.new.faults ≡ (if is_ok result then self.old.faults else self.old.faults + 1) }
    {
        let free = self.room - self.bytes.len();
        if free == 0 && !piece.is_empty() {
            self.faults += 1;
            return Err(Failed);
        }
        let count = free.min(piece.len());
        // The memory for all of the room was taken at the start.
        self.bytes.extend_from_slice(&piece[..count]).unwrap();
        Ok(count)
    }
}
