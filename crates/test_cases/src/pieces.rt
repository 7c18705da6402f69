use crate::colliding::push_colliding;
use anyhow::{Context, Result};
use std::io::Write;

/// Puts a line of a row behind the text.
///
/// At the end of a line a backslash leaves out the line feed. Elsewhere `\r` is a carriage return, `\xC3 ` that byte,
/// `\*100 20 ` a hundred bytes 20, `\#100 ` a hundred names that fall together under std's hash, and a series in braces is its members: of the numbers 2 to 4 with a comma and a blank between, ``\{2..5`, `e#}`` is
/// `e2, e3, e4`. In a series `@` is the number and one, and `~` a line feed.
pub(crate) fn push_line(text: &mut Vec<u8>, line: &str) -> Result<()> {
    let mut pieces = line.split("\\");
    push_plain(text, pieces.next().unwrap_or(""))?;
    for piece in pieces {
        push_escape(text, piece)?;
    }
    if !line.ends_with("\\") {
        text.push(b'\n')?;
    }
    Ok(())
}

fn push_plain(text: &mut Vec<u8>, piece: &str) -> Result<()> {
    text.extend_from_slice(piece.as_bytes())?;
    Ok(())
}

/// What stands behind a backslash, up to the next one.
fn push_escape(text: &mut Vec<u8>, piece: &str) -> Result<()> {
    if piece.is_empty() {
        return Ok(());
    }
    if let Some(rest) = piece.strip_prefix("r") {
        text.push(b'\r')?;
        return push_plain(text, rest);
    }
    if let Some(rest) = piece.strip_prefix("x") {
        let (digits, after) = rest.split_once(" ").context("no blank after a byte")?;
        text.push(u8::from_str_radix(digits, 16)?)?;
        return push_plain(text, after);
    }
    if let Some(rest) = piece.strip_prefix("*") {
        return push_bytes(text, rest);
    }
    if let Some(rest) = piece.strip_prefix("#") {
        let (count, after) = rest.split_once(" ").context("no blank after a count")?;
        push_colliding(text, count.parse::<u32>()?)?;
        return push_plain(text, after);
    }
    let rest = piece.strip_prefix("{").context("no such escape")?;
    let (series, after) = rest.split_once("}").context("a series without its end")?;
    push_series(text, series)?;
    push_plain(text, after)
}

/// One byte so many times, and what stands behind it.
fn push_bytes(text: &mut Vec<u8>, piece: &str) -> Result<()> {
    let (count, rest) = piece.split_once(" ").context("bytes without a count")?;
    let (digits, after) = rest.split_once(" ").context("no blank after a byte")?;
    let size = text.len().checked_add(count.parse::<usize>()?);
    text.resize(
        size.context("too many bytes")?,
        u8::from_str_radix(digits, 16)?,
    )?;
    push_plain(text, after)
}

/// The members of a series, and what stands between them.
fn push_series(text: &mut Vec<u8>, series: &str) -> Result<()> {
    let (range, rest) = series.split_once("`").context("a series without a range")?;
    let (between, member) = rest.split_once("`").context("a series without a member")?;
    let (from, to) = range.split_once("..").context("a range without its end")?;
    let from = from.parse::<u32>()?;
    for number in from..to.parse::<u32>()? {
        if number > from {
            push_member(text, between, number)?;
        }
        push_member(text, member, number)?;
    }
    Ok(())
}

/// The member of that number.
fn push_member(text: &mut Vec<u8>, member: &str, number: u32) -> Result<()> {
    for byte in member.bytes() {
        match byte {
            b'#' => write!(text, "{number}")?,
            b'@' => write!(text, "{}", number.wrapping_add(1))?,
            b'~' => text.push(b'\n')?,
            other => text.push(other)?,
        }
    }
    Ok(())
}
