ghost use Rattle.std.specs.Prelude.{◌≡◌, ◌++◌, map, IfOk, OnOk};
ghost use Rattle.flow_export.specs.Rows.{said};
ghost use Rattle.flow_export.specs.declared.sql_form.TheConstants.{INSERT_EVENTS};
ghost use Rattle.flow_export.specs.Sql.{text_value, number_value, event_values, told_values, row_values, rows_values, insert_text, insert_case_text, case_text};

use crate::csv_form::kind_word;
use crate::log_row::LogRow;
use crate::sql_literal::push_literal;
use crate::xes_form::true_false;
use itoa::Buffer;
use std::alloc::{AllocError, Global};

/// What stands in front of the cases of a log in SQL: the tables, where they are not there, and the begin of one transaction.
pub const SQL_HEAD: &[u8] = b"create table if not exists \"cases\" (
\"case\" text not null primary key);
create table if not exists \"events\" (
\"case\" text not null references \"cases\" (\"case\"),
\"entry\" bigint not null,
\"activity\" text not null,
\"kind\" text not null,
\"leaf\" bigint not null,
\"lifecycle\" text not null,
\"timestamp\" text not null,
\"resource\" text not null,
\"counts\" boolean not null,
\"note\" text not null,
primary key (\"case\", \"entry\", \"leaf\"));
begin;
";

/// What stands behind the cases of a log in SQL.
pub const SQL_END: &[u8] = b"commit;\n";

/// How the statement begins that adds a case.
pub(crate) const INSERT_CASE: &[u8] = b"insert into \"cases\" (\"case\") values (";

/// How the statement begins that adds events.
pub(crate) const INSERT_EVENTS: &[u8] =
    b"insert into \"events\" (\"case\", \"entry\", \"activity\", \"kind\", \"leaf\", \"lifecycle\", \"timestamp\", \"resource\", \"counts\", \"note\") values
";

/// The statements that add a case and its rows.
pub fn sql_case(alloc: Global, case: &str, rows: &[LogRow]) -> Result<Vec<u8>, AllocError>
    ensures { IfOk result (λ text. text.items ≡ case_text case.now (map said rows.now)) }
{
    let mut text = Vec::new(alloc);
    push_case(alloc, &mut text, case, rows)?;
    Ok(text)
}

#[tactic(auto, unfolding(crate::specs::Sql::case_text))]
fn push_case(
    alloc: Global,
    text: &mut Vec<u8>,
    case: &str,
    rows: &[LogRow],
) -> Result<(), AllocError>
    ensures { OnOk result (text.new.items ≡ text.old.items ++ case_text case.now (map said rows.now)) }
{
    push_insert_case(text, case)?;
    push_insert(alloc, text, rows)
}

#[tactic(auto, unfolding(crate::specs::Sql::insert_case_text))]
fn push_insert_case(text: &mut Vec<u8>, case: &str) -> Result<(), AllocError>
    ensures { OnOk result (text.new.items ≡ text.old.items ++ insert_case_text case.now) }
{
    text.extend_from_slice(INSERT_CASE)?;
    push_literal(text, case.as_bytes())?;
    text.extend_from_slice(b");\n")
}

/// Adds the statement that adds the rows, if there is one.
fn push_insert(alloc: Global, text: &mut Vec<u8>, rows: &[LogRow]) -> Result<(), AllocError>
    ensures { OnOk result (text.new.items ≡ text.old.items ++ insert_text (map said rows.now)) }
{
    if rows.is_empty() {
        return Ok(());
    }
    push_rows(alloc, text, rows)?;
    text.extend_from_slice(b";\n")
}

/// Adds the rows, in order.
fn push_rows(alloc: Global, text: &mut Vec<u8>, rows: &[LogRow]) -> Result<(), AllocError>
    ensures { OnOk result (text.new.items ≡ text.old.items ++ rows_values INSERT_EVENTS.now (map said rows.now)) }
{
    let mut lead = INSERT_EVENTS;
    for row in rows {
        push_row(alloc, text, lead, row)?;
        lead = b",\n";
    }
    Ok(())
}

#[tactic(auto, unfolding(crate::specs::Sql::row_values))]
fn push_row(alloc: Global, text: &mut Vec<u8>, lead: &[u8], row: &LogRow) -> Result<(), AllocError>
    ensures { OnOk result (text.new.items ≡ text.old.items ++ row_values lead.now (said row.now)) }
{
    text.extend_from_slice(lead)?;
    text.extend_from_slice(b"(")?;
    push_event_values(alloc, text, row)?;
    push_told_values(text, row)?;
    text.extend_from_slice(b")")
}

/// Adds the event. An activity that is no UTF-8 has U+FFFD where it is none.
#[tactic(auto, unfolding(crate::specs::Sql::event_values))]
fn push_event_values(alloc: Global, text: &mut Vec<u8>, row: &LogRow) -> Result<(), AllocError>
    ensures { OnOk result (text.new.items ≡ text.old.items ++ event_values (said row.now)) }
{
    let activity = String::from_utf8_lossy(alloc, &row.activity)?;
    push_text(text, row.case.as_bytes())?;
    push_number(text, row.entry)?;
    push_text(text, activity.as_bytes())?;
    push_text(text, kind_word(row.is_task).as_bytes())?;
    push_number(text, u64::from(row.leaf))?;
    push_text(text, row.lifecycle.word().as_bytes())
}

/// Adds what is told of the event.
#[tactic(auto, unfolding(crate::specs::Sql::told_values))]
fn push_told_values(text: &mut Vec<u8>, row: &LogRow) -> Result<(), AllocError>
    ensures { OnOk result (text.new.items ≡ text.old.items ++ told_values (said row.now)) }
{
    push_text(text, row.at.as_bytes())?;
    push_text(text, row.by.as_bytes())?;
    text.extend_from_slice(true_false(row.counts).as_bytes())?;
    text.extend_from_slice(b", ")?;
    push_literal(text, row.note.as_bytes())
}

#[tactic(auto, unfolding(crate::specs::Sql::text_value))]
fn push_text(text: &mut Vec<u8>, value: &[u8]) -> Result<(), AllocError>
    ensures { OnOk result (text.new.items ≡ text.old.items ++ text_value value.now) }
{
    push_literal(text, value)?;
    text.extend_from_slice(b", ")
}

#[tactic(auto, unfolding(crate::specs::Sql::number_value))]
fn push_number(text: &mut Vec<u8>, number: u64) -> Result<(), AllocError>
    ensures { OnOk result (text.new.items ≡ text.old.items ++ number_value number) }
{
    let mut digits = Buffer::new();
    text.extend_from_slice(digits.format(number).as_bytes())?;
    text.extend_from_slice(b", ")
}
