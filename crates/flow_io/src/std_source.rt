use crate::failure::Failed;
use crate::piece::PIECE;
use crate::reading::Source;
use std::io::Read;

/// A source over a reader of std, which tells what the reader tells. A read of the reader that
/// fails, for whatever cause, is a failed read, an interrupted one too.
#[derive(Drop)]
pub struct StdSource<R> {
    reader: R,
    faults: u64,
}

impl<R: Read> StdSource<R> {
    ghost use Rattle.std.specs.Prelude.{◌≡◌};

    /// A source of what is left in the reader. No read has failed yet.
    pub fn new(reader: R) -> StdSource<R>
        ensures left { ⟦<StdSource<R> as Source>⟧.left result ≡ R.remaining reader }
        ensures faults { ⟦<StdSource<R> as Source>⟧.faults result ≡ 0 }
    {
        StdSource { reader, faults: 0 }
    }
}

impl<R: Read> Source for StdSource<R> {
    ghost left = { λ s. R.remaining s.reader };

    ghost faults = { λ s. s.faults };

    // A reader may write past what it gives, so it never sees the caller's buffer.
    fn read(&mut self, buf: &mut [u8]) -> Result<usize, Failed> {
        let mut piece = [0u8; PIECE];
        let room = PIECE.min(buf.len());
        match self.reader.read(&mut piece[..room]) {
            Ok(count) => {
                buf[..count].copy_from_slice(&piece[..count]);
                Ok(count)
            }
            Err(_) => {
                self.faults += 1;
                Err(Failed)
            }
        }
    }
}
