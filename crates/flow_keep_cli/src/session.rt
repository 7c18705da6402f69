ghost use Rattle.std.specs.Prelude.{◌≡◌, ◌≢◌, ◌-◌, ◌^◌, ◌<◌, ◌↔◌, ◌⊎◌, [], false, length};
ghost use Rattle.flow_core.specs.Run.{schema};
ghost use Rattle.flow_core.specs.Lawful.{IsLawful};
ghost use Rattle.flow_keep.specs.Holding.{run_of, disk_of, is_broken};
ghost use Rattle.flow_keep_cli.specs.Session.{IsCut, BehindStatus, IsWhole};
ghost use Rattle.flow_keep_cli.specs.Lines.{kept_line};
ghost use Rattle.flow_keep_cli.specs.Course.{IsReported, IsFirstLine};

use crate::replies::{Cut, reply_to_all};
use crate::say::{DISK_LINE, print_kept, say};
use crate::status::KeepStatus;
use flow_core::Core;
use flow_disk::Disk;
use flow_front::Status;
use flow_io::{Sink, write_all};
use flow_keep::Keep;
use flow_record::Command;
use flow_reply::{print_report, status_of, verdict_of};
use std::alloc::Global;

/// Writes what a driven run came to.
fn report<K: Sink>(alloc: Global, core: &Core, sink: &mut K) -> KeepStatus
    requires { K.faults sink.old < 2 ^ 64 - 1 }
    ensures said { IsReported core.now (K.held sink.old) (K.held sink.new) result }
    ensures lawful { IsLawful (schema core.now) core.now.limit core.now.history }
    ensures fault { (result ≡ KeepStatus.Of Status.WriteFault) ↔ (K.faults sink.old < K.faults sink.new) }
    ensures no_disk { result ≢ KeepStatus.Disk }
{
    let verdict = verdict_of(core);
    let Ok(report) = print_report(alloc, core, &verdict) else {
        return KeepStatus::Of(Status::Memory);
    };
    say(sink, KeepStatus::Of(status_of(&verdict)), &report)
}

/// Goes through the session of a keep, and reports the run. The first line is written.
fn drive<K: Sink, D: Disk>(
    alloc: Global,
    keep: &mut Keep<D>,
    commands: &[Command],
    sink: &mut K,
) -> KeepStatus
    requires disk_counts { D.faults (disk_of keep.old) < 2 ^ 64 - 1 }
    requires sink_counts { K.faults sink.old < 2 ^ 64 - 1 }
    requires whole { is_broken keep.old ≡ false }
    ensures course { IsCut (run_of keep.old) commands.now (BehindStatus commands.now result) [] (K.held sink.old) (K.held sink.new)
        D.tells (D.image (disk_of keep.new) (D.moment (disk_of keep.new)))
        ⊎ IsWhole (run_of keep.old) commands.now [] result (K.held sink.old) (K.held sink.new)
        D.tells (D.seen (disk_of keep.new)) (D.image (disk_of keep.new) (D.moment (disk_of keep.new))) }
    ensures same_file { D.chosen (disk_of keep.new) ≡ D.chosen (disk_of keep.old) }
    ensures write_fault { (result ≡ KeepStatus.Of Status.WriteFault) ↔ (K.faults sink.old < K.faults sink.new) }
    ensures disk_fault { result ≡ KeepStatus.Disk → D.faults (disk_of keep.old) < D.faults (disk_of keep.new) }
    ensures disk_fault_told { D.faults (disk_of keep.old) < D.faults (disk_of keep.new)
        → (result ≡ KeepStatus.Disk) ⊎ (result ≡ KeepStatus.Of Status.WriteFault) }
{
    match reply_to_all(alloc, keep, commands, sink) {
        Ok(()) => report(alloc, keep.core(), sink),
        Err(Cut::Memory) => KeepStatus::Of(Status::Memory),
        Err(Cut::Sink) => KeepStatus::Of(Status::WriteFault),
        Err(Cut::Disk) => say(sink, KeepStatus::Disk, DISK_LINE),
    }
}

/// Tells how many entries are kept, goes through the session, and reports the run.
pub(crate) fn go_on<K: Sink, D: Disk>(
    alloc: Global,
    keep: &mut Keep<D>,
    commands: &[Command],
    sink: &mut K,
) -> KeepStatus
    requires disk_counts { D.faults (disk_of keep.old) < 2 ^ 64 - 1 }
    requires sink_counts { K.faults sink.old < 2 ^ 64 - 1 }
    requires whole { is_broken keep.old ≡ false }
    ensures course { ((disk_of keep.new ≡ disk_of keep.old) × IsFirstLine (run_of keep.old).history (K.held sink.old) (K.held sink.new) result)
        ⊎ (IsCut (run_of keep.old) commands.now (BehindStatus commands.now result) (kept_line (length (run_of keep.old).history))
        (K.held sink.old) (K.held sink.new) D.tells (D.image (disk_of keep.new) (D.moment (disk_of keep.new)))
        ⊎ IsWhole (run_of keep.old) commands.now (kept_line (length (run_of keep.old).history)) result (K.held sink.old) (K.held sink.new)
        D.tells (D.seen (disk_of keep.new)) (D.image (disk_of keep.new) (D.moment (disk_of keep.new)))) }
    ensures same_file { D.chosen (disk_of keep.new) ≡ D.chosen (disk_of keep.old) }
    ensures write_fault { (result ≡ KeepStatus.Of Status.WriteFault) ↔ (K.faults sink.old < K.faults sink.new) }
    ensures disk_fault { result ≡ KeepStatus.Disk → D.faults (disk_of keep.old) < D.faults (disk_of keep.new) }
    ensures disk_fault_told { D.faults (disk_of keep.old) < D.faults (disk_of keep.new)
        → (result ≡ KeepStatus.Disk) ⊎ (result ≡ KeepStatus.Of Status.WriteFault) }
{
    let Ok(line) = print_kept(alloc, keep.core().history().len()) else {
        return KeepStatus::Of(Status::Memory);
    };
    let Ok(()) = write_all(sink, &line) else {
        return KeepStatus::Of(Status::WriteFault);
    };
    drive(alloc, keep, commands, sink)
}
