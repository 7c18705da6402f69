ghost use Rattle.std.specs.Prelude.{◌≡◌, IfOk};
ghost use Rattle.flow_findings.specs.Refusing.{named_by, IsTold};
ghost use Rattle.flow_front.specs.Stop.{IsStop};
ghost use Rattle.flow_desk.specs.Stop.{text_place, place_of, TellsRefusal};
ghost use Rattle.flow_desk.specs.Stopped.{IsStopped};

use flow_findings::Refused;
use flow_form::{Script, TextRefusal};
use flow_front::{Output, Status, Stop, tell};
use std::alloc::{AllocError, Global};

/// A refusal of flow's, as it is told.
#[derive(Drop)]
pub struct Telling {
    pub status: Status,
    /// The byte of the workflow's text at which it points.
    pub place: Option<usize>,
    /// Its lines.
    pub text: Vec<u8>,
}

/// Why nothing is drawn. Lines of the run's file are counted from 0.
#[derive(Drop)]
pub enum DeskStop {
    /// The text of the workflow, what it says, or its options are refused.
    Workflow(Telling),
    /// The file of the run has more than `GREATEST_RUN` bytes.
    RunTooLong,
    /// The line of the run's file is not as it must be.
    Line(usize),
    /// The line of a journal has not the label of its leaf.
    Label(usize),
    /// The entry on that line is the first that may not be made.
    Illegal(usize),
    /// The picture would be too wide or too high.
    TooLarge,
    /// There was not enough memory. Nothing is said of the files.
    NoMemory,
}

impl From<AllocError> for DeskStop {
    ghost use Rattle.flow_desk.specs.declared.stop.DeskStop.TheVariants.{NoMemory};

    ghost from_gives = { λ _ e. e ≡ NoMemory };

    fn from(_error: AllocError) -> DeskStop {
        DeskStop::NoMemory
    }
}

/// The byte at which a text is refused.
fn text_place(refusal: &TextRefusal) -> Option<usize>
    ensures { result ≡ text_place refusal.now }
{
    match refusal {
        TextRefusal::NotAscii { place }
        | TextRefusal::BadToken { place }
        | TextRefusal::Expected { place, .. }
        | TextRefusal::Unknown { place, .. }
        | TextRefusal::Repeated { place, .. }
        | TextRefusal::TooDeep { place } => Some(*place),
        TextRefusal::NoMemory => None,
    }
}

/// The byte of the workflow's text at which a refusal points.
fn place_of(refused: &Refused) -> Option<usize>
    ensures { result ≡ place_of refused.now }
{
    match refused {
        Refused::Text(refusal) => text_place(refusal),
        _ => None,
    }
}

/// A refusal as it is told. An event goes by the name that the script declares.
fn tell_refusal(
    alloc: Global,
    refused: Refused,
    script: Option<&Script>,
) -> Result<Telling, AllocError>
    requires { IsTold (named_by script) refused }
    ensures { IfOk result (TellsRefusal (named_by script.entry) refused) }
{
    let place = place_of(&refused);
    let Output { status, text } = tell(alloc, refused, script)?;
    Ok(Telling {
        status,
        place,
        text,
    })
}

/// What stopped flow, as what stops the desk.
pub(crate) fn stopped(alloc: Global, stop: Stop, script: Option<&Script>) -> DeskStop
    requires { IsStop (IsTold (named_by script)) stop }
    ensures { IsStopped (named_by script.entry) stop result }
{
    match stop {
        Stop::Refused(refused) => match tell_refusal(alloc, refused, script) {
            Ok(telling) => DeskStop::Workflow(telling),
            Err(AllocError) => DeskStop::NoMemory,
        },
        Stop::NoMemory => DeskStop::NoMemory,
    }
}
