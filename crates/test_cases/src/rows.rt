use crate::pieces::push_line;
use anyhow::{Context, Result};
use std::alloc::Global;

/// What a call of `flow`, `flowkeep` or `flowdesk` is given, and what it must write. In a file a row stands so:
///
/// ```text
/// === the name of the row
/// flow check
/// 0
/// the lines of the input
/// ---
/// the lines of the output
/// ```
///
/// Behind the status may stand how many bytes can be written, and behind that the number of the call from which on the
/// disk fails. A row of `flowkeep` goes on by what the disk holds before the call, and after it, in hexadecimal bytes:
///
/// ```text
/// ---
/// 01 00 00 00 00 00 00 00 00 00 00 01 00 00 00 00
/// 00
/// ---
/// 01 00 00 00 00 00 00 00 00 00 00 01 00 00 00 00
/// 00
/// ```
///
/// A row of `flowdesk` goes on by the lines of the file of a run, where one is shown. A row of `flow` with a bound on what it costs
/// goes on by the lines of another input, and its status stands so: `0 300000 20` for at most 20 times what that input costs.
#[derive(Drop)]
pub(crate) struct Row<'a> {
    pub(crate) name: &'a str,
    /// The command line.
    pub(crate) words: &'a str,
    /// The number of the status.
    pub(crate) status: u8,
    /// How many bytes can be written.
    pub(crate) room: usize,
    /// The number of the first call of the disk that fails.
    pub(crate) stop_at: u32,
    pub(crate) input: Vec<u8>,
    pub(crate) output: Vec<u8>,
    /// The bytes on the disk before the call, and after it.
    pub(crate) before: Vec<u8>,
    pub(crate) after: Vec<u8>,
    /// The file of a run, or the input with which the cost is compared.
    pub(crate) beside: Option<Vec<u8>>,
    /// How many times as much as that input it may cost.
    pub(crate) times: u32,
}

/// More bytes than any row writes.
const ROOM: usize = 300_000;
/// More calls of the disk than any row makes.
pub(crate) const CALLS: u32 = 4_000;

/// The lines of a text, each as its pieces say.
fn bytes_of(alloc: Global, text: &str) -> Result<Vec<u8>> {
    let mut bytes = Vec::new(alloc);
    for line in text.lines() {
        push_line(&mut bytes, line)?;
    }
    Ok(bytes)
}

/// The bytes that a text names in hexadecimal.
fn hexadecimal(alloc: Global, text: &str) -> Result<Vec<u8>> {
    let mut bytes = Vec::new(alloc);
    for digits in text.split_whitespace() {
        bytes.push(u8::from_str_radix(digits, 16)?)?;
    }
    Ok(bytes)
}

/// A status, how many bytes can be written, and one more number: of a row of `flow`, how many times as much as another
/// input it may cost, of a row of `flowkeep`, from which call on the disk fails.
fn ending(line: &str) -> Result<(u8, usize, Option<u32>)> {
    let mut words = line.split_whitespace();
    let status = words.next().context("a row without a status")?;
    let room = match words.next() {
        Some(room) => room.parse::<usize>()?,
        None => ROOM,
    };
    let further = match words.next() {
        Some(further) => Some(further.parse::<u32>()?),
        None => None,
    };
    Ok((status.parse::<u8>()?, room, further))
}

impl<'a> Row<'a> {
    /// The row that the text says; it begins with the name.
    pub(crate) fn read(alloc: Global, text: &'a str) -> Result<Row<'a>> {
        let mut parts = text.split("---\n");
        let given = parts.next().context("an empty row")?;
        let (name, given) = given.split_once("\n").context("a row without a name")?;
        let (words, given) = given.split_once("\n").context("a row without words")?;
        let (status, given) = given.split_once("\n").context("a row without a status")?;
        let (status, room, further) = ending(status)?;
        let output = parts.next().context("a row without ---")?;
        let (beside, before) = match parts.next() {
            None => (None, ""),
            Some(before) if words.starts_with("flowkeep") => (None, before),
            Some(lines) => (Some(bytes_of(alloc, lines)?), ""),
        };
        Ok(Row {
            name,
            words,
            status,
            room,
            stop_at: further.unwrap_or(CALLS),
            input: bytes_of(alloc, given)?,
            output: bytes_of(alloc, output)?,
            before: hexadecimal(alloc, before)?,
            after: hexadecimal(alloc, parts.next().unwrap_or(""))?,
            beside,
            times: further.unwrap_or(0),
        })
    }
}
