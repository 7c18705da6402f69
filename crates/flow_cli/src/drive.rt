ghost use Rattle.flow_form.specs.Script.{said};
ghost use Rattle.flow_form.specs.Names.{IsClosed};
ghost use Rattle.flow_cli.specs.Finding.{Answers};
ghost use Rattle.flow_cli.specs.Drive.{IsStepCount, DrivesSaid, DrivesText};

use flow_core::Core;
use flow_form::Script;
use flow_front::{Output, Prepared, Stop, prepare};
use flow_record::{Command, read_session};
use flow_reply::drive;
use std::alloc::Global;

/// The number of the caller that makes the entries of a session.
const DRIVER: u32 = 0;

/// Drives what a script says by a session.
fn drive_script(
    alloc: Global,
    script: &Script,
    session: &[Command],
    steps: u32,
) -> Result<Output, Stop>
    requires closed { IsClosed (said script.now) }
    requires steps { IsStepCount steps }
    ensures { Answers (DrivesSaid (said script.now) steps session.now) result }
{
    let prepared = prepare(alloc, script)?;
    let Prepared { workflow, compiled } = prepared;
    let mut core = Core::start(alloc, workflow, compiled, steps)?;
    let output = drive(alloc, &mut core, session, DRIVER);
    drop(core);
    Ok(output?)
}

/// Drives what a script says by the session of a text, whose lines are read first.
pub(crate) fn drive_text(
    alloc: Global,
    script: &Script,
    text: &[u8],
    steps: u32,
) -> Result<Output, Stop>
    requires closed { IsClosed (said script.now) }
    requires steps { IsStepCount steps }
    ensures { Answers (DrivesText (said script.now) steps text.now) result }
{
    let session = read_session(alloc, text)?;
    drive_script(alloc, script, &session, steps)
}
