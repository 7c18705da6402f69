//! Reads and writes that fail, each in turn.
ghost use Rattle.std.specs.Prelude.{◌<◌, ◌-◌, ◌^◌};

use super::calling::{PLAIN, PLAIN_WRITTEN, ROOM, called, is_driven};
use flow_cli::Status;
use std::alloc::AllocError;
use std::sync::Wait;
use std::thread::Threads;
use test_doubles::{FaultySink, FaultySource, MemSource};

/// Whether the plain path ends so, with that text, where the read of that number fails.
fn is_told<R: AllocGlobal + Threads + Wait + Sync>(
    rt: &R,
    call: u32,
    status: Status,
    text: &str,
) -> Result<bool, AllocError> {
    let bytes = PLAIN.as_bytes().to_vec(rt.alloc())?;
    let failing = [call].to_vec(rt.alloc())?;
    is_driven(rt, &mut FaultySource::new(bytes, failing), status, text)
}

#[test]
fn a_failed_read_ends_the_call(rt: HostRuntime) {
    // the second read is the one that finds the end
    for call in 0..2 {
        let told = is_told(&rt, call, Status::ReadFault, "refused: read\n");
        assert!(rt; matches!(told, Ok(true)), "at {call}");
    }
    let told = is_told(&rt, 2, Status::Fine, PLAIN_WRITTEN);
    assert!(rt; matches!(told, Ok(true)));
}

/// How the plain path ends into that sink.
fn written<R: AllocGlobal + Threads + Wait + Sync>(
    rt: &R,
    sink: &mut FaultySink,
) -> Result<Status, AllocError>
    requires { sink.old.store.faults < 2 ^ 64 - 1 }
{
    let bytes = PLAIN.as_bytes().to_vec(rt.alloc())?;
    called(rt, "flow drive", &mut MemSource::new(bytes), sink)
}

/// Whether the plain path ends so, with that text, into a sink of that room whose write of that number fails.
fn is_cut_off<R: AllocGlobal + Threads + Wait + Sync>(
    rt: &R,
    room: usize,
    call: u32,
    status: Status,
    text: &[u8],
) -> Result<bool, AllocError> {
    let mut sink = FaultySink::new(rt.alloc(), room, [call].to_vec(rt.alloc())?)?;
    let ended = written(rt, &mut sink)?;
    Ok(ended == status && sink.bytes() == text)
}

#[test]
fn a_failed_write_ends_the_call(rt: HostRuntime) {
    let first = is_cut_off(&rt, ROOM, 0, Status::WriteFault, b"");
    assert!(rt; matches!(first, Ok(true)));
    let none = is_cut_off(&rt, ROOM, 1, Status::Fine, PLAIN_WRITTEN.as_bytes());
    assert!(rt; matches!(none, Ok(true)));
}

#[test]
fn a_full_sink_has_the_front(rt: HostRuntime) {
    let text = PLAIN_WRITTEN.as_bytes();
    for room in 0..text.len() {
        let cut = is_cut_off(&rt, room, 1, Status::WriteFault, &text[..room]);
        assert!(rt; matches!(cut, Ok(true)), "at {room}");
    }
}
