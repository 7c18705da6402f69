ghost use Rattle.std.specs.Prelude.{◌≡◌, ◌≢◌, ◌-◌, ◌^◌, ◌<◌, ◌≤◌, ◌↔◌, ◌⊎◌, ℕ, List, map};
ghost use Rattle.std.specs.String.{string_bytes};
ghost use Rattle.std.specs.Io.KnownBytes.{Appends};
ghost use Rattle.flow_plan.specs.Compilation.{IsCompiled};
ghost use Rattle.flow_keep_cli.specs.Words.{IsStepCount};
ghost use Rattle.flow_workflow.specs.Definition.{schema_of};
ghost use Rattle.flow_keep_cli.specs.Asked.{NeedsNoDisk, IsTaken};
ghost use Rattle.flow_keep_cli.specs.Words.{IsHelp, IsCall};
ghost use Rattle.flow_keep_cli.specs.Lines.{help_text};
ghost use Rattle.flow_front.specs.Input.{IsReadWhole};
ghost use Rattle.flow_keep_cli.specs.Course.{IsCourse, IsBefore, IsCutOff, IsDriven, IsAnsweredAlone, IsOver, IsRefusal, IsMishap, IsSaid, ReadsWhole};

use crate::asked::{Asked, Looked, look};
use crate::begin::{Hindered, begin};
use crate::say::{say, tell};
use crate::session::go_on;
use crate::status::KeepStatus;
use crate::words::{Call, asks_for_help, call_of};
use flow_disk::Disk;
use flow_front::Status;
use flow_io::{Sink, Source};
use std::alloc::Global;

/// What is written where the words are no call.
const WORDS_TEXT: &[u8] = b"refused: words\nusage: flowkeep PATH [--steps N]\n";

/// What is written where help is asked for.
const HELP_TEXT: &[u8] =
    b"usage: flowkeep PATH [--steps N]\n\nDrives a workflow by a session, and keeps the run in the file PATH. Standard input has the\nworkflow, a line `%%` and the session. With the file of an earlier call the run goes on.\n\n  --steps N   the greatest number of entries of the history; 65536 where it is not given\n  --help      writes this text\n";

/// Keeps a session in the file that the call names.
fn keep_session<K: Sink, D: Disk>(
    alloc: Global,
    call: Call<'_>,
    asked: Asked,
    sink: &mut K,
    disk: D,
) -> (KeepStatus, D)
    requires compiled { IsCompiled (schema_of asked.prepared.workflow) asked.prepared.compiled }
    requires steps { IsStepCount call.steps }
    requires disk_counts { D.faults disk < 2 ^ 64 - 1 }
    requires sink_counts { K.faults sink.old < 2 ^ 64 - 1 }
    ensures course { IsCourse D.tells D.moment D.image D.synced D.seen D.faults D.chosen D.file_at call.entry.path.now asked.prepared.workflow call.entry.steps asked.commands.items
        disk result.1 (K.held sink.old) (K.held sink.new) result.0 }
    ensures write_fault { (result.0 ≡ KeepStatus.Of Status.WriteFault) ↔ (K.faults sink.old < K.faults sink.new) }
    ensures disk_fault { result.0 ≡ KeepStatus.Disk → D.faults disk < D.faults result.1 }
    ensures disk_fault_told { D.faults disk < D.faults result.1 → (result.0 ≡ KeepStatus.Disk) ⊎ (result.0 ≡ KeepStatus.Of Status.WriteFault) }
    ensures input { IsRefusal result.0 → result.0 ≡ KeepStatus.Of Status.Input }
{
    let Asked { prepared, commands } = asked;
    match begin(alloc, call, prepared, disk) {
        Ok(mut keep) => {
            let status = go_on(alloc, &mut keep, &commands, sink);
            (status, keep.into_disk())
        }
        Err(Hindered { disk, why }) => (tell(alloc, why, sink), disk),
    }
}

/// The program: reads a workflow and a session from the source, and drives the workflow by it, going on with the run that the file of the
/// path keeps. Each reply is written after its entry is in the file. The disk is given back however the call ends.
/// Where the words ask for help it is given, and nothing is read.
pub fn flowkeep<S: Source, K: Sink, D: Disk>(
    alloc: Global,
    words: &[String],
    source: &mut S,
    sink: &mut K,
    disk: D,
) -> (KeepStatus, D)
    requires source_counts { S.faults source.old < 2 ^ 64 - 1 }
    requires sink_counts { K.faults sink.old < 2 ^ 64 - 1 }
    requires disk_counts { D.faults disk < 2 ^ 64 - 1 }

    // Whole: it wrote how many entries the file kept, the replies and the report of the session that goes on from these, and the status is that of
    // the report's verdict. A read of the disk then gives the history of that report. Or no execution of the workflow meets its constraints.
    ensures whole { IsOver result.0 → IsAnsweredAlone (map (λ word. string_bytes word) words.now) (S.left source.old)
        disk result.1 (K.held sink.old) (K.held sink.new) result.0
        ⊎ IsDriven D.tells D.moment D.image D.synced D.seen D.faults D.chosen D.file_at (map (λ word. string_bytes word) words.now) (S.left source.old)
        disk result.1 (K.held sink.old) (K.held sink.new) result.0 }
    // Cut: the first line was written whole, and a crash leaves the entries kept at first with those of some first lines of the session, of each
    // whose reply was written whole.
    ensures cut { IsMishap result.0 → IsCutOff D.tells D.moment D.image D.synced D.seen D.faults D.chosen D.file_at (map (λ word. string_bytes word) words.now) (S.left source.old)
        disk result.1 (K.held sink.old) (K.held sink.new) result.0
        ⊎ IsBefore D.tells D.moment D.image D.synced D.seen D.faults D.chosen D.file_at (map (λ word. string_bytes word) words.now) (S.left source.old)
        disk result.1 (K.held sink.old) (K.held sink.new) result.0 }
    // Before: it was not, and a crash leaves the entries kept at first.
    ensures before { IsRefusal result.0 → IsBefore D.tells D.moment D.image D.synced D.seen D.faults D.chosen D.file_at (map (λ word. string_bytes word) words.now) (S.left source.old)
        disk result.1 (K.held sink.old) (K.held sink.new) result.0 }

    // When each fault is told. A write that fails stands in place of all else, and a disk that failed of all but that.
    ensures write_fault { (result.0 ≡ KeepStatus.Of Status.WriteFault) ↔ (K.faults sink.old < K.faults sink.new) }
    ensures disk_fault { result.0 ≡ KeepStatus.Disk → D.faults disk < D.faults result.1 }
    ensures disk_fault_told { D.faults disk < D.faults result.1 → (result.0 ≡ KeepStatus.Disk) ⊎ (result.0 ≡ KeepStatus.Of Status.WriteFault) }
    ensures read_fault { result.0 ≡ KeepStatus.Of Status.ReadFault → S.faults source.old < S.faults source.new }
    ensures read_fault_told { S.faults source.old < S.faults source.new →
        (result.0 ≡ KeepStatus.Of Status.ReadFault) ⊎ ((result.0 ≡ KeepStatus.Of Status.WriteFault) ⊎ (result.0 ≡ KeepStatus.Of Status.Memory)) }

    // Help is given exactly where it is asked for. What is read of the source.
    ensures help { IsHelp (map (λ word. string_bytes word) words.now) → (result.1 ≡ disk) × (source.new ≡ source.old)
        × IsSaid (KeepStatus.Of Status.Fine) help_text (K.held sink.old) (K.held sink.new) result.0 }
    ensures words { result.0 ≡ KeepStatus.Of Status.Words → source.new ≡ source.old }
    ensures read { ¬ (IsHelp (map (λ word. string_bytes word) words.now)) → ReadsWhole result.0 →
        IsReadWhole (S.left source.old) (S.left source.new) }
    ensures taken { (path : List ℕ) (steps : ℕ) → IsCall (map (λ word. string_bytes word) words.now) path steps →
        ¬ (IsHelp (map (λ word. string_bytes word) words.now)) → result.0 ≢ KeepStatus.Of Status.Memory →
        ¬ (S.faults source.old < S.faults source.new) → IsTaken (S.left source.old) (S.left source.new) }
{
    if asks_for_help(words) {
        return (say(sink, KeepStatus::Of(Status::Fine), HELP_TEXT), disk);
    }
    let Some(call) = call_of(words) else {
        return (say(sink, KeepStatus::Of(Status::Words), WORDS_TEXT), disk);
    };
    match look(alloc, source) {
        Ok(Looked::Ready(asked)) => keep_session(alloc, call, asked, sink, disk),
        Ok(Looked::Refused(output)) => {
            let status = say(sink, KeepStatus::Of(output.status), &output.text);
            drop(output);
            (status, disk)
        }
        Err(_) => (KeepStatus::Of(Status::Memory), disk),
    }
}
