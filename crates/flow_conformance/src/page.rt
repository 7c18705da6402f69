use crate::cause::Cause;
use crate::findings::Findings;
use flow_event_log::Reading;
use itoa::Buffer;
use std::alloc::AllocError;
use std::io::{self, Write};

/// A log that was read, what is found of its cases, and the name of each event by its number.
#[derive(Clone, Copy)]
pub struct Answered<'a> {
    pub reading: &'a Reading,
    pub found: &'a Findings,
    pub labels: &'a Labels,
}

/// The names of events by their numbers.
#[derive(Drop)]
pub struct Labels {
    pub names: Vec<Vec<u8>>,
}

impl Labels {
    /// The name of an event.
    pub(crate) fn name(&self, event: u32) -> &[u8] {
        match self.names.get(event as usize) {
            Some(name) => name.as_slice(),
            None => b"?",
        }
    }
}

/// How long a page is before it is written.
const PAGE: usize = 65_536;

/// Adds the digits of a number.
pub(crate) fn push_number(page: &mut Vec<u8>, number: u64) -> Result<(), AllocError> {
    let mut digits = Buffer::new();
    page.extend_from_slice(digits.format(number).as_bytes())
}

/// Adds a number behind blanks, so that it ends at least at that column.
pub(crate) fn push_aligned(
    page: &mut Vec<u8>,
    number: u64,
    width: usize,
) -> Result<(), AllocError> {
    let mut digits = Buffer::new();
    let text = digits.format(number).as_bytes();
    for _blank in text.len()..width {
        page.push(b' ')?;
    }
    page.extend_from_slice(text)
}

/// Writes the page where it is long enough, and begins another.
pub(crate) fn write_full<W: Write>(out: &mut W, page: &mut Vec<u8>) -> io::Result<()> {
    if page.len() >= PAGE {
        out.write_all(page.as_slice())?;
        page.clear();
    }
    Ok(())
}

/// The word for a cause.
pub(crate) fn cause_word(cause: Cause) -> &'static str {
    match cause {
        Cause::Unknown => "unknown",
        Cause::Again => "again",
        Cause::Before(_) => "before",
        Cause::After(_) => "after",
        Cause::Never => "never",
    }
}

/// Adds why an event does not fit, in words.
pub(crate) fn push_cause(
    page: &mut Vec<u8>,
    labels: &Labels,
    event: u32,
    cause: Cause,
) -> Result<(), AllocError> {
    let name = labels.name(event);
    match cause {
        Cause::Unknown => {
            page.extend_from_slice(b"unknown activity ")?;
            page.extend_from_slice(name)
        }
        Cause::Again => {
            page.extend_from_slice(name)?;
            page.extend_from_slice(b" came already")
        }
        Cause::Before(other) => {
            page.extend_from_slice(name)?;
            page.extend_from_slice(b" before ")?;
            page.extend_from_slice(labels.name(other))
        }
        Cause::After(other) => {
            page.extend_from_slice(name)?;
            page.extend_from_slice(b" after ")?;
            page.extend_from_slice(labels.name(other))
        }
        Cause::Never => {
            page.extend_from_slice(name)?;
            page.extend_from_slice(b" cannot come here")
        }
    }
}
