//! The plain path, driven over any source and sink.
ghost use Rattle.std.specs.Prelude.{◌<◌, ◌-◌, ◌^◌};

use flow_cli::{Status, flow};
use flow_gate::NoteGate;
use flow_io::{Sink, Source};
use std::alloc::{AllocError, Global};
use std::sync::Wait;
use std::thread::Threads;
use test_doubles::MemSink;

/// More bytes than are written here.
pub(crate) const ROOM: usize = 2000;

/// A workflow and a session.
pub(crate) const PLAIN: &str = "event a, b, c; goal a * (b | c);
%%
take 1
take 0
done 1
take 2
take 1
done 3
done 2
commit
";

/// What `drive` writes of it.
pub(crate) const PLAIN_WRITTEN: &str = "refused not-enabled 1
claim 1 epoch 0 attempt 1 a
done 1
claim 2 epoch 0 attempt 1 c
claim 3 epoch 0 attempt 1 b
done 3
done 2
committed
history 7
0: took 1 0
0: done 1
0: took 2 2
0: took 3 1
0: done 3
0: done 2
0: committed
journal 3
0 a
1 b
2 c
verdict committed
";

/// The words of a command line.
fn words_of(alloc: Global, line: &str) -> Result<Vec<String>, AllocError> {
    let mut words = Vec::new(alloc);
    for word in line.split_whitespace() {
        words.push(String::from_str(alloc, word)?)?;
    }
    Ok(words)
}

/// How a call with that command line ends.
pub(crate) fn called<R: AllocGlobal + Threads + Wait + Sync, S: Source, K: Sink>(
    rt: &R,
    line: &str,
    source: &mut S,
    sink: &mut K,
) -> Result<Status, AllocError>
    requires source_counts { S.faults source.old < 2 ^ 64 - 1 }
    requires sink_counts { K.faults sink.old < 2 ^ 64 - 1 }
{
    let words = words_of(rt.alloc(), line)?;
    Ok(flow(rt, rt.alloc(), &words, source, sink, &NoteGate))
}

/// Whether `drive` ends so over the source, and writes that text.
pub(crate) fn is_driven<R: AllocGlobal + Threads + Wait + Sync, S: Source>(
    rt: &R,
    source: &mut S,
    status: Status,
    text: &str,
) -> Result<bool, AllocError>
    requires { S.faults source.old < 2 ^ 64 - 1 }
{
    let mut sink = MemSink::new(rt.alloc(), ROOM)?;
    let ended = called(rt, "flow drive", source, &mut sink)?;
    Ok(ended == status && sink.bytes() == text.as_bytes())
}
