use crate::listing::is_listed;
use crate::mem_source::MemSource;
use flow_io::{Failed, Source};
use std::marker::Model;

/// A source over memory that fails at the listed calls of `read`, counted from 0, and is a
/// `MemSource` at all others. A clause sees it as its bytes left, the list, how many calls there
/// were (the count stays at its greatest value) and how many of them failed.
#[derive(Drop)]
pub struct FaultySource {
    source: MemSource,
    fail_at: Vec<u32>,
    calls: u64,
    faults: u64,
}

impl Model for FaultySource {
    ghost use Rattle.test_doubles.specs.Faults.{Faulty};

    ghost Value = { Faulty };

    ghost view = { λ s. record { bytes = s.source; fail_at = s.fail_at.items; calls = s.calls; faults = s.faults } };
}

impl FaultySource {
    ghost use Rattle.std.specs.Prelude.{◌≡◌};

    /// A source of these bytes, which fails at the calls of these numbers.
    pub fn new(bytes: Vec<u8>, fail_at: Vec<u32>) -> FaultySource
        ensures { result ≡ record { bytes = bytes.items; fail_at = fail_at.items; calls = 0; faults = 0 } }
    {
        FaultySource {
            source: MemSource::new(bytes),
            fail_at,
            calls: 0,
            faults: 0,
        }
    }
}

impl Source for FaultySource {
    ghost use Rattle.std.specs.Prelude.{◌≡◌, ◌^◌, ◌-◌, ◌+◌, ◌<◌, ◌≤◌, ◌↔◌, IfOk, OnErr, IsErr, is_ok, if◌then◌else◌, Some, Ok, min, length, Contains};
    ghost use Rattle.std.specs.Io.KnownBytes.{Keeps};
    ghost use Rattle.flow_io.specs.Source.{GivesNext};

    ghost left = { λ s. Some s.bytes };

    ghost faults = { λ s. s.faults };

    fn read(&mut self, buf: &mut [u8]) -> Result<usize, Failed>
        requires { self.old.faults < 2 ^ 64 - 1 }
        ensures given { IfOk result (GivesNext (Some self.old.bytes) (Some self.new.bytes) buf.old buf.new) }
        ensures count { IfOk result (λ n. n ≡ min (length self.old.bytes) (length buf.old)) }
        ensures bytes_kept { OnErr result (self.new.bytes ≡ self.old.bytes) }
        ensures buffer_kept { OnErr result (buf.new ≡ buf.old) }
        ensures listed { IsErr result ↔ Contains self.old.fail_at self.old.calls }
        ensures list_kept { self.new.fail_at ≡ self.old.fail_at }
        ensures counted { self.new.calls ≡ min (self.old.calls + 1) (2 ^ 64 - 1) }
        ensures faults { self.new.faults ≡ (if is_ok result then self.old.faults else self.old.faults + 1) }
    {
        let call = self.calls;
        self.calls = call.saturating_add(1);
        if is_listed(&self.fail_at, call) {
            self.faults += 1;
            return Err(Failed);
        }
        self.source.read(buf)
    }
}
