ghost use Rattle.std.specs.Prelude.{◌≡◌, ℕ, IfOk, Some, Ok, min, length};
ghost use Rattle.flow_io.specs.Source.{GivesNext};

use crate::copying::copy_front;
use flow_io::{Failed, Source};
use std::marker::Model;

/// A source over memory, which tells its bytes, gives as many as the buffer has room for, and
/// never fails. A clause sees it as the bytes left.
#[derive(Drop)]
pub struct MemSource {
    bytes: Vec<u8>,
    at: usize,
}

impl Model for MemSource {
    ghost use Rattle.std.specs.Prelude.{List, ℕ, ◌≤◌, drop, vec_len};

    ghost Value = { List ℕ };

    ghost view = { λ s. drop s.at s.bytes.items };

    ghost invariant = { λ s. s.at ≤ vec_len s.bytes };
}

impl MemSource {
    /// A source of these bytes.
    pub fn new(bytes: Vec<u8>) -> MemSource
        ensures { result ≡ bytes.items }
    {
        MemSource { bytes, at: 0 }
    }
}

impl Source for MemSource {
    ghost left = { λ s. Some s };

    ghost faults = { λ _. 0 };

    fn read(&mut self, buf: &mut [u8]) -> Result<usize, Failed>
        ensures given { IfOk result (GivesNext (Some self.old) (Some self.new) buf.old buf.new) }
        ensures count { result ≡ Ok (min (length self.old) (length buf.old)) }
    {
        let count = copy_front(&self.bytes[self.at..], buf);
        self.at += count;
        Ok(count)
    }
}
