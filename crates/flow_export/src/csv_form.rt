ghost use Rattle.std.specs.Prelude.{◌≡◌, ◌++◌, ◌∷◌, [], map, IfOk, OnOk};
ghost use Rattle.std.specs.Fmt.{decimal};
ghost use Rattle.csv.specs.Records.{fields_of, partial_of};
ghost use Rattle.flow_export.specs.Rows.{said, kind_word, yes_no, csv_names, csv_fields, csv_record, csv_lines};

use crate::log_row::LogRow;
use csv::{ByteRecord, Error, WriterBuilder};
use itoa::Buffer;
use std::alloc::{AllocError, Global};

/// The first line of a log in CSV: the names of its columns.
pub fn csv_head(alloc: Global) -> Result<Vec<u8>, AllocError>
    ensures { IfOk result (λ text. text.items ≡ csv_record csv_names) }
{
    let mut names = ByteRecord::new(alloc);
    push(&mut names, "case".as_bytes())?;
    push(&mut names, "entry".as_bytes())?;
    push(&mut names, "activity".as_bytes())?;
    push(&mut names, "kind".as_bytes())?;
    push(&mut names, "leaf".as_bytes())?;
    push(&mut names, "lifecycle".as_bytes())?;
    push(&mut names, "timestamp".as_bytes())?;
    push(&mut names, "resource".as_bytes())?;
    push(&mut names, "counts".as_bytes())?;
    push(&mut names, "note".as_bytes())?;
    record(alloc, &names)
}

/// The lines of the rows in CSV. What is read of a line are its fields again.
pub fn csv_lines(alloc: Global, rows: &[LogRow]) -> Result<Vec<u8>, AllocError>
    ensures { IfOk result (λ text. text.items ≡ csv_lines (map said rows.now)) }
{
    let mut text = Vec::new(alloc);
    for row in rows {
        text.extend_from_slice(&csv_line(alloc, row)?)?;
    }
    Ok(text)
}

/// The line of a row in CSV.
fn csv_line(alloc: Global, row: &LogRow) -> Result<Vec<u8>, AllocError>
    ensures { IfOk result (λ text. text.items ≡ csv_record (csv_fields (said row.now))) }
{
    let mut fields = ByteRecord::new(alloc);
    push(&mut fields, row.case.as_bytes())?;
    push_number(&mut fields, row.entry)?;
    push(&mut fields, &row.activity)?;
    push(&mut fields, kind_word(row.is_task).as_bytes())?;
    push_number(&mut fields, u64::from(row.leaf))?;
    push(&mut fields, row.lifecycle.word().as_bytes())?;
    push(&mut fields, row.at.as_bytes())?;
    push(&mut fields, row.by.as_bytes())?;
    push(&mut fields, yes_no(row.counts).as_bytes())?;
    push(&mut fields, row.note.as_bytes())?;
    record(alloc, &fields)
}

/// Adds a field.
fn push(fields: &mut ByteRecord, field: &[u8]) -> Result<(), AllocError>
    requires { partial_of fields.old ≡ [] }
    ensures fields { OnOk result (fields_of fields.new ≡ fields_of fields.old ++ field.now ∷ []) }
    ensures partial { OnOk result (partial_of fields.new ≡ []) }
{
    fields.push_field(field)
}

/// Adds a number as a field.
fn push_number(fields: &mut ByteRecord, number: u64) -> Result<(), AllocError>
    requires { partial_of fields.old ≡ [] }
    ensures fields { OnOk result (fields_of fields.new ≡ fields_of fields.old ++ decimal number ∷ []) }
    ensures partial { OnOk result (partial_of fields.new ≡ []) }
{
    let mut digits = Buffer::new();
    push(fields, digits.format(number).as_bytes())
}

/// The word of what stands at a leaf.
pub(crate) fn kind_word(is_task: bool) -> &'static str
    ensures { result.now ≡ kind_word is_task }
{
    if is_task { "task" } else { "step" }
}

fn yes_no(counts: bool) -> &'static str
    ensures { result.now ≡ yes_no counts }
{
    if counts { "yes" } else { "no" }
}

/// A record of CSV with a line feed behind it.
fn record(alloc: Global, fields: &ByteRecord) -> Result<Vec<u8>, AllocError>
    ensures { IfOk result (λ text. text.items ≡ csv_record (fields_of fields.now)) }
{
    match record_bytes(alloc, fields) {
        Ok(text) => Ok(text),
        Err(_) => Err(AllocError),
    }
}

/// The same; the error is want of memory.
fn record_bytes(alloc: Global, fields: &ByteRecord) -> Result<Vec<u8>, Error>
    ensures { IfOk result (λ text. text.items ≡ csv_record (fields_of fields.now)) }
{
    let mut writer = WriterBuilder::new().from_writer(Vec::new(alloc));
    writer.write_byte_record(fields)?;
    match writer.into_inner() {
        Ok(text) => Ok(text),
        Err(error) => Err(error.into_error()),
    }
}
