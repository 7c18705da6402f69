use crate::status::WRITE_FAULT;
use std::io::{self, Write};

/// Writes it to standard output, and gives the status.
pub fn write_out(rt: &(impl Print + Eprint), text: &[u8]) -> u8 {
    let mut out = io::writer(rt);
    match out.write_all(text).and_then(|()| out.flush()) {
        Ok(()) => 0,
        Err(error) => {
            let _ = eprintln!(rt; "flowdesk: standard output: {error}");
            WRITE_FAULT
        }
    }
}
