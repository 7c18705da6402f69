ghost use Rattle.std.specs.Prelude.{◌≡◌, Some, map, IfOk, OnOk};
ghost use Rattle.std.specs.Str.{IsUtf8};
ghost use Rattle.std.specs.String.{string_bytes};
ghost use Rattle.serde_json.specs.Data.{put, string};
ghost use Rattle.serde_json.specs.Read.{read};
ghost use Rattle.serde_json.specs.View.{view, members_view};
ghost use Rattle.serde_json.specs.Written.{compact_text};
ghost use Rattle.flow_export.specs.Rows.{said, json_object, json_line, json_lines, AreTexts};

use crate::csv_form::kind_word;
use crate::log_row::LogRow;
use serde_json::{Map, Value, put};
use std::alloc::{AllocError, Global};

/// The rows as lines of JSON, an object a line.
pub fn json_lines(alloc: Global, rows: &[LogRow]) -> Result<Vec<u8>, AllocError>
    ensures { AreTexts rows.now → IfOk result (λ text. text.items ≡ json_lines (map said rows.now)) }
{
    let mut text = Vec::new(alloc);
    for row in rows {
        text.extend_from_slice(json_text(alloc, row)?.as_bytes())?;
        text.push(b'\n')?;
    }
    Ok(text)
}

/// The object of a row, which is read back as that.
fn json_text(alloc: Global, row: &LogRow) -> Result<String, AllocError>
    ensures text { IsUtf8 row.now.activity.items → IfOk result (λ text. string_bytes text ≡ compact_text (json_object (said row.now))) }
    ensures read_back { IsUtf8 row.now.activity.items → IfOk result (λ text. read (string_bytes text) ≡ Some (json_object (said row.now))) }
{
    let activity = str::from_utf8(&row.activity).unwrap_or("");
    let object = row_value(alloc, row, activity)?;
    let text = object.to_string(alloc);
    drop(object);
    text
}

/// The row as an object of JSON, with the name of its activity.
fn row_value(alloc: Global, row: &LogRow, activity: &str) -> Result<Value, AllocError>
    ensures { IfOk result (λ value. view value ≡ json_object (record (said row.now) { activity = activity.now })) }
{
    let mut members = Map::new(alloc);
    put_text(&mut members, alloc, "activity", activity)?;
    put_text(&mut members, alloc, "case", &row.case)?;
    put(&mut members, alloc, "counts", Value::from(row.counts))?;
    put(&mut members, alloc, "entry", Value::from(row.entry))?;
    put_text(&mut members, alloc, "kind", kind_word(row.is_task))?;
    put(
        &mut members,
        alloc,
        "leaf",
        Value::from(u64::from(row.leaf)),
    )?;
    put_text(&mut members, alloc, "lifecycle", row.lifecycle.word())?;
    put_text(&mut members, alloc, "note", &row.note)?;
    put_text(&mut members, alloc, "resource", &row.by)?;
    put_text(&mut members, alloc, "timestamp", &row.at)?;
    Ok(Value::Object(members))
}

/// Puts a text among the members of an object.
fn put_text(
    members: &mut Map<String, Value>,
    alloc: Global,
    key: &str,
    text: &str,
) -> Result<(), AllocError>
    ensures { OnOk result (members_view members.new.entries ≡ put key.now (string text.now) (members_view members.old.entries)) }
{
    put(members, alloc, key, Value::try_from_str(alloc, text)?)
}
