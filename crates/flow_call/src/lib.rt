//! What each call of `flowdesk` reads and writes, and its statuses.
#![tactic(auto)]

mod input;
mod message;
mod output;
mod sheet;
mod status;
mod time;
mod words;

pub use input::{is_folder, read_file, read_source};
pub use message::{say_no_source, say_undrawn, say_unread};
pub use output::write_out;
pub use sheet::sheet_in;
pub use status::{BUSY, DISK, INPUT, NO_MEMORY, READ_FAULT, REFUSED, WORDS, WRITE_FAULT};
pub use time::stamp;
pub use words::{MOST_JOBS, USUAL_JOBS, flag, number_in, option, required};
