ghost use Rattle.std.specs.Prelude.{IfOk, Err};
ghost use Rattle.flow_findings.specs.Refusing.{named_by, IsTold};
ghost use Rattle.flow_front.specs.Status.{Tells};
ghost use Rattle.flow_front.specs.Stop.{IsStop, TellsStop};

use crate::status::Status;
use crate::stop::Stop;
use flow_findings::{Refused, print_refused};
use flow_form::Script;
use std::alloc::{AllocError, Global};

/// What is written, and the status that goes with it.
#[derive(Drop)]
pub struct Output {
    pub status: Status,
    pub text: Vec<u8>,
}

/// A refusal as output. An event goes by the name that the script declares.
pub fn tell(alloc: Global, refused: Refused, script: Option<&Script>) -> Result<Output, AllocError>
    requires { IsTold (named_by script) refused }
    ensures { IfOk result (λ output. Tells (named_by script.entry) refused output.status output.text.items) }
{
    let status = Status::of(&refused);
    let text = print_refused(alloc, &refused, script);
    drop(refused);
    Ok(Output {
        status,
        text: text?,
    })
}

/// What stopped a call as output, unless that was want of memory.
pub fn refuse(alloc: Global, stop: Stop, script: Option<&Script>) -> Result<Output, AllocError>
    requires { IsStop (IsTold (named_by script)) stop }
    ensures { IfOk result (λ output. TellsStop (named_by script.entry) stop output.status output.text.items) }
{
    match stop {
        Stop::Refused(refused) => tell(alloc, refused, script),
        Stop::NoMemory => Err(AllocError),
    }
}
