//! Rows of pictures: the call of `flow_desk` on a workflow, and on the file of a run, if one is shown.

use crate::rows::Row;
use anyhow::Result;
use flow_desk::{DeskStop, Format, Position, Sheet, Telling, drawn, position_of};
use flow_facts::Name;
use std::alloc::Global;
use std::io::Write;

/// The status where the file of a run is refused, or the picture is.
const REFUSED: u8 = 3;
/// The status where there was not enough memory.
const NO_MEMORY: u8 = 6;

/// The word behind the one of that name.
fn word_behind<'a>(words: &'a [String], name: &str) -> Option<&'a str> {
    let place = words.iter().position(|word| word.as_str() == name)?;
    words.get(place + 1).map(|word| word.as_str())
}

/// How the words ask for a picture: its form, its title, and how wide a row is.
fn sheet_in(alloc: Global, words: &[String]) -> Result<Sheet> {
    let form = match word_behind(words, "--form") {
        Some("mermaid") => Format::Mermaid,
        Some("dot") => Format::Dot,
        _ => Format::Svg,
    };
    let title = Name::new(
        alloc,
        word_behind(words, "--title").unwrap_or("").as_bytes(),
    )?;
    let fold = match word_behind(words, "--fold") {
        Some(width) => width.parse::<u32>().ok(),
        None => None,
    };
    Ok(Sheet { form, title, fold })
}

/// A refusal of flow's behind the line and the column at which it points.
fn tell_refusal(text: &mut Vec<u8>, input: &[u8], telling: &Telling) -> Result<u8> {
    if let Some(place) = telling.place {
        let Position { line, column } = position_of(input, place);
        write!(text, "{line}:{column}: ")?;
    }
    text.extend_from_slice(&telling.text)?;
    Ok(telling.status.code())
}

/// Writes why nothing is drawn, and gives the status.
fn tell_stop(text: &mut Vec<u8>, input: &[u8], stop: &DeskStop) -> Result<u8> {
    match stop {
        DeskStop::Workflow(telling) => return tell_refusal(text, input, telling),
        DeskStop::RunTooLong => write!(text, "the run is too long\n")?,
        DeskStop::Line(line) => write!(text, "line {line}\n")?,
        DeskStop::Label(line) => write!(text, "label {line}\n")?,
        DeskStop::Illegal(line) => write!(text, "entry {line}\n")?,
        DeskStop::TooLarge => write!(text, "the picture is too large\n")?,
        DeskStop::NoMemory => return Ok(NO_MEMORY),
    }
    Ok(REFUSED)
}

/// The status of the call that a row describes, and the picture or why there is none.
pub(crate) fn drawn_by(alloc: Global, words: &[String], row: &Row<'_>) -> Result<(u8, Vec<u8>)> {
    let sheet = sheet_in(alloc, words)?;
    let picture = match &row.beside {
        Some(run) => drawn(alloc, &row.input, Some(run), &[], &sheet),
        None => drawn(alloc, &row.input, None, &[], &sheet),
    };
    match picture {
        Ok(picture) => Ok((0, picture)),
        Err(stop) => {
            let mut text = Vec::new(alloc);
            let status = tell_stop(&mut text, &row.input, &stop)?;
            Ok((status, text))
        }
    }
}
