//! Where the bytes of a run come from and where they go: sources and sinks that may fail, and those over std's
//! readers and writers.
#![tactic(auto)]

mod failure;
mod piece;
mod reading;
mod std_sink;
mod std_source;
mod writing;

pub use failure::{Failed, ReadRefusal};
pub use reading::{Source, read_all};
pub use std_sink::StdSink;
pub use std_source::StdSource;
pub use writing::{Sink, write_all};
