ghost use Rattle.std.specs.Prelude.{◌≡◌, Some};

use flow_io::{Failed, Source};

/// Bytes that are there, as a source. No read of them fails.
#[derive(Drop)]
pub(crate) struct Bytes<'a> {
    pub(crate) rest: &'a [u8],
}

impl Source for Bytes<'_> {
    ghost left = { λ s. Some s.rest.now };

    ghost faults = { λ _. 0 };

    fn read(&mut self, buf: &mut [u8]) -> Result<usize, Failed> {
        let count = buf.len().min(self.rest.len());
        let (front, rest) = self.rest.split_at(count);
        buf[..count].copy_from_slice(front);
        self.rest = rest;
        Ok(count)
    }
}
