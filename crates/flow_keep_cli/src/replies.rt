ghost use Rattle.std.specs.Prelude.{◌≡◌, ◌-◌, ◌^◌, ◌<◌, ℕ, List, [], false, IfErr, IfOk, OnOk, MatchResult};
ghost use Rattle.std.specs.Io.KnownBytes.{Appends};
ghost use Rattle.flow_reply.specs.Replies.{RepliesTo, Drives};
ghost use Rattle.flow_keep.specs.Holding.{run_of, disk_of, is_broken};
ghost use Rattle.flow_keep_cli.specs.Session.{driver, IsCut, IsGiven, IsNoSink, BehindReplies, CountsCut, CountsServed, KeepsCut};
ghost use Rattle.flow_keep.specs.Records.{Keeps};

use flow_disk::Disk;
use flow_io::{Sink, write_all};
use flow_keep::Keep;
use flow_record::Command;
use flow_reply::{answer_line, look_line};
use std::alloc::Global;

/// The number of the caller that makes the entries of a session.
const DRIVER: u32 = 0;

/// Why a session was cut short.
#[derive(Clone, Copy)]
pub enum Cut {
    /// There was not enough memory for a reply.
    Memory,
    /// The sink failed.
    Sink,
    /// The disk failed.
    Disk,
}

/// Gives a command to a keep none of whose calls has failed, and gives the line of the reply, once the entry that came of it is in the file.
#[tactic(auto, using(crate::proofs::Served::answered, crate::proofs::Served::given_so))]
fn serve<D: Disk>(alloc: Global, keep: &mut Keep<D>, command: &Command) -> Result<Vec<u8>, Cut>
    requires faults { D.faults (disk_of keep.old) < 2 ^ 64 - 1 }
    requires whole { is_broken keep.old ≡ false }
    ensures cause { CountsServed (D.faults (disk_of keep.old)) (D.faults (disk_of keep.new)) result }
    ensures unbroken { OnOk result (is_broken keep.new ≡ false) }
    ensures same_file { D.chosen (disk_of keep.new) ≡ D.chosen (disk_of keep.old) }
    ensures replies { IfOk result (λ line. RepliesTo (run_of keep.old) driver command.now line.items (run_of keep.new)) }
    ensures given { IsGiven (run_of keep.old) command.now (run_of keep.new) }
    ensures no_sink { IfErr result IsNoSink }
    ensures kept { D.tells → (c : List ℕ) → D.image (disk_of keep.new) (D.moment (disk_of keep.new)) c
        → MatchResult result (λ line. Keeps (run_of keep.new).history c) (λ cut. KeepsCut (run_of keep.old).history (run_of keep.new).history cut c) }
{
    match *command {
        Command::Ask(ask) => {
            let answer = keep.answer(ask, DRIVER);
            if keep.is_broken() {
                return Err(Cut::Disk);
            }
            match answer_line(alloc, keep.core(), ask, &answer) {
                Ok(line) => Ok(line),
                Err(_) => Err(Cut::Memory),
            }
        }
        Command::Look(look) => {
            keep.look_ahead();
            match look_line(alloc, keep.core(), look) {
                Ok(line) => Ok(line),
                Err(_) => Err(Cut::Memory),
            }
        }
    }
}

/// Goes through the commands. The reply to each is written once the entry that came of it is in the file.
pub fn reply_to_all<K: Sink, D: Disk>(
    alloc: Global,
    keep: &mut Keep<D>,
    commands: &[Command],
    sink: &mut K,
) -> Result<(), Cut>
    requires disk_counts { D.faults (disk_of keep.old) < 2 ^ 64 - 1 }
    requires sink_counts { K.faults sink.old < 2 ^ 64 - 1 }
    requires whole { is_broken keep.old ≡ false }
    ensures cause { CountsCut (D.faults (disk_of keep.old)) (D.faults (disk_of keep.new)) (K.faults sink.old) (K.faults sink.new) result }
    ensures unbroken { OnOk result (is_broken keep.new ≡ false) }
    ensures same_file { D.chosen (disk_of keep.new) ≡ D.chosen (disk_of keep.old) }
    ensures replies { OnOk result ((text : List ℕ) × Drives (run_of keep.old) driver commands.now text (run_of keep.new)
        × Appends (K.held sink.old) (K.held sink.new) text) }
    ensures cut { IfErr result (λ cut. IsCut (run_of keep.old) commands.now (BehindReplies commands.now cut) []
        (K.held sink.old) (K.held sink.new) D.tells (D.image (disk_of keep.new) (D.moment (disk_of keep.new)))) }
{
    for command in commands {
        let line = match serve(alloc, keep, command) {
            Ok(line) => line,
            Err(cut) => return Err(cut),
        };
        let Ok(()) = write_all(sink, &line) else {
            return Err(Cut::Sink);
        };
    }
    Ok(())
}
