ghost use Rattle.std.specs.Prelude.{◌≡◌, ℕ, ◌+◌, ◌-◌, ◌^◌, ◌<◌, ◌≤◌, ◌↔◌, List, length, vec_len, IfOk, OnOk, OnErr, IsErr, IsErrOf, IfSome, Some, Option};
ghost use Rattle.std.specs.Io.KnownBytes.{Keeps};
ghost use Rattle.flow_io.specs.Source.{GivesNext, IsAllOf, LosesAtMost, LosesCount};

use crate::failure::{Failed, ReadRefusal};
use crate::piece::PIECE;
use std::alloc::Global;

/// Bytes to be read, by calls that may fail.
pub trait Source {
    // The bytes left, where the source tells them.
    ghost left: { Self → Option (List ℕ) };

    // How many reads have failed.
    ghost faults: { Self → ℕ };

    /// Reads into the front of the buffer, as many bytes as the source chooses.
    fn read(&mut self, buf: &mut [u8]) -> Result<usize, Failed>
        requires { faults self.old < 2 ^ 64 - 1 }
        ensures given { IfOk result (GivesNext (left self.old) (left self.new) buf.old buf.new) }
        ensures left_kept { OnErr result (Keeps (left self.old) (left self.new)) }
        ensures buffer_kept { OnErr result (buf.new ≡ buf.old) }
        ensures later { faults self.old ≤ faults self.new }
        ensures once { faults self.new ≤ faults self.old + 1 }
        ensures failed { IsErr result ↔ (faults self.old < faults self.new) };
}

/// Reads all bytes up to the end, where they are at most `limit`. A failed read ends the call, and
/// is never taken as the end.
pub fn read_all<S: Source>(
    alloc: Global,
    source: &mut S,
    limit: usize,
) -> Result<Vec<u8>, ReadRefusal>
    requires countable { S.faults source.old < 2 ^ 64 - 1 }
    requires limited { limit < usize.MAX }

    // Where the source tells its bytes, an `Ok` has them all, and nothing is left.
    ensures whole { IfOk result (λ bytes. IsAllOf (S.left source.old) (S.left source.new) bytes.items) }
    ensures within { IfOk result (λ bytes. vec_len bytes ≤ limit) }

    // When each refusal comes, and what is left then.
    ensures fault { IsErrOf result ReadRefusal.ReadFault ↔ (S.faults source.old < S.faults source.new) }
    ensures too_long { IfSome (S.left source.old) (λ bytes. IsErrOf result ReadRefusal.TooLong
        ↔ LosesCount (Some bytes) (S.left source.new) (limit + 1)) }
    ensures faulted { IsErrOf result ReadRefusal.ReadFault
        → LosesAtMost (S.left source.old) (S.left source.new) limit }
    ensures starved { IsErrOf result ReadRefusal.NoMemory
        → LosesAtMost (S.left source.old) (S.left source.new) limit }
    ensures later { S.faults source.old ≤ S.faults source.new }
    ensures once { S.faults source.new ≤ S.faults source.old + 1 }
{
    let mut buffer = [0u8; PIECE];
    let mut bytes = Vec::new(alloc);
    loop {
        let room = PIECE.min(limit + 1 - bytes.len());
        let piece = &mut buffer[..room];
        let Ok(count) = source.read(piece) else {
            return Err(ReadRefusal::ReadFault);
        };
        if count == 0 {
            return Ok(bytes);
        }
        if count > limit - bytes.len() {
            return Err(ReadRefusal::TooLong);
        }
        let Ok(()) = bytes.extend_from_slice(&buffer[..count]) else {
            return Err(ReadRefusal::NoMemory);
        };
    }
}
