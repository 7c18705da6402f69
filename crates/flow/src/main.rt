//! `flow` on the standard streams, in nine modes. Of a workflow that is read `check` says whether its constraints
//! can be met, `verify` whether a property holds in all its executions, and `trace` whether a journal is one of
//! them, as `audit` says of many; `drive` drives it by a session, `duty` by one of users who may take what a policy allows, and `run`
//! lets workers run it, whose tasks end as their events announce.
//! `gen` writes a generated workflow, and `large` lets workers run one.
#![tactic(auto)]

use flow_cli::{Status, flow};
use flow_gate::NoteGate;
use flow_io::{StdSink, StdSource};
use std::alloc::AllocError;
use std::process::ExitCode;
use std::rt::Env;
use std::{env, io};

/// The words of the command line. Where one of them is no text there are none, which is no call either.
fn words(rt: &(impl Env + AllocGlobal)) -> Result<Vec<String>, AllocError> {
    match env::args(rt) {
        Ok(args) => Vec::from_iter(rt.alloc(), args),
        Err(error) if error.kind() == io::ErrorKind::OutOfMemory => Err(AllocError),
        Err(_) => Ok(Vec::new(rt.alloc())),
    }
}

fn main(rt: HostRuntime) -> ExitCode {
    let Ok(words) = words(&rt) else {
        return ExitCode::from(Status::Memory.code());
    };
    let mut source = StdSource::new(rt.stdin());
    let mut sink = StdSink::new(rt.stdout());
    let status: Status = flow(&rt, rt.alloc(), &words, &mut source, &mut sink, &NoteGate);
    ExitCode::from(status.code())
}
