use crate::mem_source::MemSource;
use flow_io::{Failed, Source};
use std::marker::Model;

/// A source over memory that gives at most `size` bytes a call, and never fails. A clause sees it
/// as the bytes left and the size.
#[derive(Drop)]
pub struct CutSource {
    source: MemSource,
    size: usize,
}

impl Model for CutSource {
    ghost use Rattle.std.specs.Prelude.{◌<◌};
    ghost use Rattle.test_doubles.specs.Faults.{Cut};

    ghost Value = { Cut };

    ghost view = { λ s. record { bytes = s.source; size = s.size } };

    ghost invariant = { λ s. 0 < s.size };
}

impl CutSource {
    ghost use Rattle.std.specs.Prelude.{◌≡◌, ◌<◌};

    /// A source of these bytes, of which no call gives more than `size`.
    pub fn new(bytes: Vec<u8>, size: usize) -> CutSource
        requires { 0 < size }
        ensures { result ≡ record { bytes = bytes.items; size = size } }
    {
        CutSource {
            source: MemSource::new(bytes),
            size,
        }
    }
}

impl Source for CutSource {
    ghost use Rattle.std.specs.Prelude.{◌≡◌, IfOk, Some, Ok, min, length};
    ghost use Rattle.flow_io.specs.Source.{GivesNext};

    ghost left = { λ s. Some s.bytes };

    ghost faults = { λ _. 0 };

    fn read(&mut self, buf: &mut [u8]) -> Result<usize, Failed>
        ensures given { IfOk result (GivesNext (Some self.old.bytes) (Some self.new.bytes) buf.old buf.new) }
        ensures count { result ≡ Ok (min (length self.old.bytes) (min (length buf.old) self.old.size)) }
        ensures size_kept { self.new.size ≡ self.old.size }
    {
        let room = buf.len().min(self.size);
        self.source.read(&mut buf[..room])
    }
}
