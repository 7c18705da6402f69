ghost use Rattle.std.specs.Prelude.{◌≡◌, ◌≢◌, ◌<◌, ◌-◌, ◌^◌, ◌↔◌, ◌++◌, codes, IfOk};
ghost use Rattle.std.specs.Fmt.{decimal};
ghost use Rattle.flow_keep_cli.specs.Lines.{kept_line};
ghost use Rattle.flow_keep_cli.specs.Course.{IsTold, IsSaid};

use crate::begin::Hindrance;
use crate::status::KeepStatus;
use flow_front::Status;
use flow_io::{Sink, write_all};
use flow_keep::KeepRefusal;
use flow_record::print_pieces;
use itoa::Buffer;
use std::alloc::{AllocError, Global};

/// What is written where the disk has failed.
pub(crate) const DISK_LINE: &[u8] = b"refused: disk\n";

/// Writes a text, and gives the status that goes with it.
pub(crate) fn say<K: Sink>(sink: &mut K, status: KeepStatus, text: &[u8]) -> KeepStatus
    requires counts { K.faults sink.old < 2 ^ 64 - 1 }
    requires other { status ≢ KeepStatus.Of Status.WriteFault }
    ensures said { IsSaid status text.now (K.held sink.old) (K.held sink.new) result }
    ensures fault { (result ≡ KeepStatus.Of Status.WriteFault) ↔ (K.faults sink.old < K.faults sink.new) }
{
    match write_all(sink, text) {
        Ok(()) => status,
        Err(_) => KeepStatus::Of(Status::WriteFault),
    }
}

/// Prints a line of one word or two and a number.
fn print_numbered(alloc: Global, words: &[u8], number: u64) -> Result<Vec<u8>, AllocError>
    ensures { IfOk result (λ line. line.items ≡ words.now ++ decimal number ++ codes "\n") }
{
    let mut digits = Buffer::new();
    print_pieces(alloc, &[words, digits.format(number).as_bytes(), b"\n"])
}

/// Prints how many entries were kept when the call began.
pub(crate) fn print_kept(alloc: Global, count: usize) -> Result<Vec<u8>, AllocError>
    ensures { IfOk result (λ line. line.items ≡ kept_line count) }
{
    print_numbered(alloc, b"kept ", count as u64)
}

/// Writes why a session is not begun.
pub(crate) fn tell<K: Sink>(alloc: Global, why: Hindrance, sink: &mut K) -> KeepStatus
    requires { K.faults sink.old < 2 ^ 64 - 1 }
    ensures told { IsTold why (K.held sink.old) (K.held sink.new) result }
    ensures fault { (result ≡ KeepStatus.Of Status.WriteFault) ↔ (K.faults sink.old < K.faults sink.new) }
{
    match why {
        Hindrance::Open => say(sink, KeepStatus::Disk, b"refused: open\n"),
        Hindrance::Later(KeepRefusal::DiskFault) => say(sink, KeepStatus::Disk, DISK_LINE),
        Hindrance::Later(KeepRefusal::Foreign { index }) => {
            match print_numbered(alloc, b"refused: foreign ", u64::from(index)) {
                Ok(line) => say(sink, KeepStatus::Of(Status::Input), &line),
                Err(AllocError) => KeepStatus::Of(Status::Memory),
            }
        }
        Hindrance::Later(KeepRefusal::NoMemory) => KeepStatus::Of(Status::Memory),
    }
}
