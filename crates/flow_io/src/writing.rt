ghost use Rattle.std.specs.Prelude.{◌≡◌, ℕ, ◌+◌, ◌-◌, ◌^◌, ◌<◌, ◌≤◌, ◌↔◌, List, length, IfOk, OnOk, OnErr, IsErr, Option};
ghost use Rattle.std.specs.Io.KnownBytes.{Appends, Keeps};
ghost use Rattle.flow_io.specs.Sink.{AppendsPart, TakesFront};

use crate::failure::Failed;

/// A place for bytes, by calls that may fail.
pub trait Sink {
    // The bytes held, where the sink tells them.
    ghost held: { Self → Option (List ℕ) };

    // How many writes have failed.
    ghost faults: { Self → ℕ };

    /// Takes the front of the piece, as many bytes as the sink chooses.
    fn write(&mut self, piece: &[u8]) -> Result<usize, Failed>
        requires { faults self.old < 2 ^ 64 - 1 }
        ensures taken { IfOk result (TakesFront (held self.old) (held self.new) piece.now) }
        ensures held_kept { OnErr result (Keeps (held self.old) (held self.new)) }
        ensures later { faults self.old ≤ faults self.new }
        ensures once { faults self.new ≤ faults self.old + 1 }
        ensures failed { IsErr result ↔ (faults self.old < faults self.new) };
}

/// Writes all the bytes, or stops at the first write that fails.
pub fn write_all<K: Sink>(sink: &mut K, bytes: &[u8]) -> Result<(), Failed>
    requires { K.faults sink.old < 2 ^ 64 - 1 }
    ensures all { OnOk result (Appends (K.held sink.old) (K.held sink.new) bytes.now) }
    ensures part { OnErr result (AppendsPart (K.held sink.old) (K.held sink.new) bytes.now) }
    ensures later { K.faults sink.old ≤ K.faults sink.new }
    ensures once { K.faults sink.new ≤ K.faults sink.old + 1 }
    ensures failed { IsErr result ↔ (K.faults sink.old < K.faults sink.new) }
{
    let mut done = 0;
    while done < bytes.len() {
        done += sink.write(&bytes[done..])?;
    }
    Ok(())
}
