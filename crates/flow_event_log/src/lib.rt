//! Event logs: read from CSV, and grouped into cases.
#![tactic(auto)]

mod columns;
mod event_log;
mod fault;
mod grouping;
mod moment;
mod names;
mod names_key;
mod reading;
mod sequences;
mod spelling;
mod timeline;

pub use columns::{Columns, Wanted};
pub use event_log::{Event, EventLog};
pub use fault::{Column, LogFault, LogRefusal};
pub use grouping::{Cases, group};
pub use names::Names;
pub use names_key::NamesKey;
pub use reading::{BadRow, Flaw, Reading, read_log, read_log_with_key};
pub use spelling::spelled;
