//! Sections and rows from words.
ghost use Rattle.std.specs.Prelude.{◌≡◌, IfOk, map};
ghost use Rattle.flow_page.specs.Shown.{shown, shown_part, shown_section, words, plain_row, told as told_shown, tabled as tabled_shown};

use crate::data::{Part, Row, Section, Table};
use flow_facts::Name;
use std::alloc::{AllocError, Global};

/// A paragraph.
pub fn paragraph(alloc: Global, text: &[u8]) -> Result<Part, AllocError>
    ensures { IfOk result (λ part. shown_part part ≡ words text.now) }
{
    Ok(Part::Text(Name::new(alloc, text)?))
}

/// A section with a paragraph.
pub fn told(alloc: Global, heading: &[u8], text: &[u8]) -> Result<Section, AllocError>
    ensures { IfOk result (λ section. shown_section section ≡ told_shown heading.now text.now) }
{
    let mut parts = Vec::new(alloc);
    parts.push(paragraph(alloc, text)?)?;
    Ok(Section {
        heading: Name::new(alloc, heading)?,
        parts,
    })
}

/// The heads of columns.
fn columns(alloc: Global, heads: &[&str]) -> Result<Vec<Name>, AllocError>
    ensures { IfOk result (λ columns. columns.items ≡ map (λ head. head.now) heads.now) }
{
    let mut columns = Vec::new(alloc);
    for head in heads {
        columns.push(Name::new(alloc, head.as_bytes())?)?;
    }
    Ok(columns)
}

/// A section with a table of these columns; with the words in its place, where there is no row.
pub fn tabled(
    alloc: Global,
    heading: &[u8],
    heads: &[&str],
    rows: Vec<Row>,
    text: &[u8],
) -> Result<Section, AllocError>
    ensures { IfOk result (λ section. shown_section section ≡ tabled_shown heading.now (map (λ head. head.now) heads.now) (map shown rows.items) text.now) }
{
    if rows.is_empty() {
        drop(rows);
        return told(alloc, heading, text);
    }
    let mut parts = Vec::new(alloc);
    parts.push(Part::Table(Table {
        heads: columns(alloc, heads)?,
        rows,
    }))?;
    Ok(Section {
        heading: Name::new(alloc, heading)?,
        parts,
    })
}

/// A row of nothing that was taken back.
pub fn row(head: Name, cells: Vec<Name>) -> Row
    ensures { shown result ≡ plain_row head cells.items }
{
    Row {
        head,
        cells,
        is_taken_back: false,
    }
}
