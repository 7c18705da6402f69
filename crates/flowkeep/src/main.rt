//! `flowkeep` on the standard streams and a file of the system: drives a workflow by a session, and goes on with the run that the file keeps.
#![tactic(auto)]

use flow_disk::FileDisk;
use flow_io::{StdSink, StdSource};
use flow_keep_cli::{Status, flowkeep};
use std::alloc::AllocError;
use std::process::ExitCode;
use std::rt::Env;
use std::{env, io};

/// The words of the command line. Where one of them is no text there are none, which is no call either.
fn words(rt: &(impl Env + AllocGlobal)) -> Result<Vec<String>, AllocError> {
    match env::args(rt) {
        Ok(args) => Vec::from_iter(rt.alloc(), args),
        Err(error) if error.kind() == io::ErrorKind::OutOfMemory => Err(AllocError),
        Err(_) => Ok(Vec::new(rt.alloc())),
    }
}

fn main(rt: HostRuntime) -> ExitCode {
    let Ok(words) = words(&rt) else {
        return ExitCode::from(Status::Memory.code());
    };
    let mut source = StdSource::new(rt.stdin());
    let mut sink = StdSink::new(rt.stdout());
    let disk = FileDisk::new(&rt);
    let (status, disk) = flowkeep(rt.alloc(), &words, &mut source, &mut sink, disk);
    drop(disk);
    ExitCode::from(status.code())
}
