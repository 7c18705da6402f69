ghost use Rattle.std.specs.Prelude.{◌≡◌, ◌++◌, codes, map, IfOk, OnOk};
ghost use Rattle.std.specs.Fmt.{decimal};
ghost use Rattle.flow_export.specs.Rows.{said};
ghost use Rattle.flow_export.specs.Xes.{attribute_text, told_text, time_text, transition_of, true_false, standard_text, place_text, own_text, event_text, events_text, trace_text};

use crate::csv_form::kind_word;
use crate::date_time::is_date_time;
use crate::log_event::Lifecycle;
use crate::log_row::LogRow;
use crate::xml_value::push_value;
use itoa::Buffer;
use std::alloc::{AllocError, Global};

/// What stands in front of the traces of a log in XES: the extensions, the attributes that each trace and event has, the classifiers.
pub const XES_HEAD: &[u8] = b"<?xml version=\"1.0\" encoding=\"UTF-8\"?>
<log xes.version=\"1849-2016\" xes.features=\"\" xmlns=\"http://www.xes-standard.org/\">
<extension name=\"Concept\" prefix=\"concept\" uri=\"http://www.xes-standard.org/concept.xesext\"/>
<extension name=\"Lifecycle\" prefix=\"lifecycle\" uri=\"http://www.xes-standard.org/lifecycle.xesext\"/>
<extension name=\"Organizational\" prefix=\"org\" uri=\"http://www.xes-standard.org/org.xesext\"/>
<extension name=\"Time\" prefix=\"time\" uri=\"http://www.xes-standard.org/time.xesext\"/>
<global scope=\"trace\">
<string key=\"concept:name\" value=\"unknown\"/>
</global>
<global scope=\"event\">
<string key=\"concept:name\" value=\"unknown\"/>
<string key=\"lifecycle:transition\" value=\"unknown\"/>
<int key=\"flow:entry\" value=\"0\"/>
<string key=\"flow:kind\" value=\"task\"/>
<int key=\"flow:leaf\" value=\"0\"/>
<string key=\"flow:lifecycle\" value=\"unknown\"/>
<boolean key=\"flow:counts\" value=\"false\"/>
</global>
<classifier name=\"Activity\" keys=\"concept:name\"/>
<classifier name=\"Transition\" keys=\"concept:name lifecycle:transition\"/>
<string key=\"lifecycle:model\" value=\"standard\"/>
";

/// What stands behind the traces of a log in XES.
pub const XES_END: &[u8] = b"</log>\n";

// The keys of the attributes: those of the extensions of the standard, and those that only a flow has.
const NAME: &[u8] = b"concept:name";

const RESOURCE: &[u8] = b"org:resource";

const TIMESTAMP: &[u8] = b"time:timestamp";

const TRANSITION: &[u8] = b"lifecycle:transition";

const TIME: &[u8] = b"flow:time";

const ENTRY: &[u8] = b"flow:entry";

const KIND: &[u8] = b"flow:kind";

const LEAF: &[u8] = b"flow:leaf";

const HAPPENED: &[u8] = b"flow:lifecycle";

const COUNTS: &[u8] = b"flow:counts";

const NOTE: &[u8] = b"flow:note";

/// The trace of a case in XES: its name, and an event for each row.
pub fn xes_trace(alloc: Global, case: &str, rows: &[LogRow]) -> Result<Vec<u8>, AllocError>
    ensures { IfOk result (λ text. text.items ≡ trace_text case.now (map said rows.now)) }
{
    let mut text = Vec::new(alloc);
    push_trace(alloc, &mut text, case, rows)?;
    Ok(text)
}

#[tactic(auto, unfolding(crate::specs::Xes::trace_text))]
fn push_trace(
    alloc: Global,
    text: &mut Vec<u8>,
    case: &str,
    rows: &[LogRow],
) -> Result<(), AllocError>
    ensures { OnOk result (text.new.items ≡ text.old.items ++ trace_text case.now (map said rows.now)) }
{
    text.extend_from_slice(b"<trace>\n")?;
    push_attribute(text, "string", NAME, case.as_bytes())?;
    push_events(alloc, text, rows)?;
    text.extend_from_slice(b"</trace>\n")
}

/// Adds the events of the rows, in order.
fn push_events(alloc: Global, text: &mut Vec<u8>, rows: &[LogRow]) -> Result<(), AllocError>
    ensures { OnOk result (text.new.items ≡ text.old.items ++ events_text (map said rows.now)) }
{
    for row in rows {
        push_event(alloc, text, row)?;
    }
    Ok(())
}

#[tactic(auto, unfolding(crate::specs::Xes::event_text))]
fn push_event(alloc: Global, text: &mut Vec<u8>, row: &LogRow) -> Result<(), AllocError>
    ensures { OnOk result (text.new.items ≡ text.old.items ++ event_text (said row.now)) }
{
    text.extend_from_slice(b"<event>\n")?;
    push_standard(alloc, text, row)?;
    push_place(text, row)?;
    push_own(text, row)?;
    text.extend_from_slice(b"</event>\n")
}

/// Adds what the extensions of the standard say. An activity that is no UTF-8 has U+FFFD where it is none.
#[tactic(auto, unfolding(crate::specs::Xes::standard_text))]
fn push_standard(alloc: Global, text: &mut Vec<u8>, row: &LogRow) -> Result<(), AllocError>
    ensures { OnOk result (text.new.items ≡ text.old.items ++ standard_text (said row.now)) }
{
    let activity = String::from_utf8_lossy(alloc, &row.activity)?;
    push_attribute(text, "string", NAME, activity.as_bytes())?;
    push_told(text, RESOURCE, row.by.as_bytes())?;
    push_time(text, row.at.as_bytes())?;
    push_attribute(
        text,
        "string",
        TRANSITION,
        transition_of(row.lifecycle).as_bytes(),
    )
}

/// Adds what only a flow has: where the event stands.
#[tactic(auto, unfolding(crate::specs::Xes::place_text))]
fn push_place(text: &mut Vec<u8>, row: &LogRow) -> Result<(), AllocError>
    ensures { OnOk result (text.new.items ≡ text.old.items ++ place_text (said row.now)) }
{
    push_int(text, ENTRY, row.entry)?;
    push_attribute(text, "string", KIND, kind_word(row.is_task).as_bytes())?;
    push_int(text, LEAF, u64::from(row.leaf))
}

/// Adds what happened in the words of a flow, whether it counts, and the note.
#[tactic(auto, unfolding(crate::specs::Xes::own_text))]
fn push_own(text: &mut Vec<u8>, row: &LogRow) -> Result<(), AllocError>
    ensures { OnOk result (text.new.items ≡ text.old.items ++ own_text (said row.now)) }
{
    push_attribute(text, "string", HAPPENED, row.lifecycle.word().as_bytes())?;
    push_attribute(text, "boolean", COUNTS, true_false(row.counts).as_bytes())?;
    push_told(text, NOTE, row.note.as_bytes())
}

/// Adds when the entry was made.
#[tactic(auto, unfolding(crate::specs::Xes::time_text))]
fn push_time(text: &mut Vec<u8>, at: &[u8]) -> Result<(), AllocError>
    ensures { OnOk result (text.new.items ≡ text.old.items ++ time_text at.now) }
{
    if is_date_time(at) {
        push_attribute(text, "date", TIMESTAMP, at)
    } else {
        push_told(text, TIME, at)
    }
}

/// Adds an attribute of a text, unless that is empty.
#[tactic(auto, unfolding(crate::specs::Xes::told_text))]
fn push_told(text: &mut Vec<u8>, key: &[u8], value: &[u8]) -> Result<(), AllocError>
    ensures { OnOk result (text.new.items ≡ text.old.items ++ told_text key.now value.now) }
{
    match value {
        [] => Ok(()),
        _ => push_attribute(text, "string", key, value),
    }
}

fn push_int(text: &mut Vec<u8>, key: &[u8], number: u64) -> Result<(), AllocError>
    ensures { OnOk result (text.new.items ≡ text.old.items ++ attribute_text (codes "int") key.now (decimal number)) }
{
    let mut digits = Buffer::new();
    push_attribute(text, "int", key, digits.format(number).as_bytes())
}

/// Adds an attribute of that type.
#[tactic(auto, unfolding(crate::specs::Xes::attribute_text))]
fn push_attribute(
    text: &mut Vec<u8>,
    type_name: &str,
    key: &[u8],
    value: &[u8],
) -> Result<(), AllocError>
    ensures { OnOk result (text.new.items ≡ text.old.items ++ attribute_text type_name.now key.now value.now) }
{
    text.extend_from_slice(b"<")?;
    text.extend_from_slice(type_name.as_bytes())?;
    text.extend_from_slice(b" key=\"")?;
    text.extend_from_slice(key)?;
    text.extend_from_slice(b"\" value=\"")?;
    push_value(text, value)?;
    text.extend_from_slice(b"\"/>\n")
}

/// What happened, in a word of the standard.
fn transition_of(lifecycle: Lifecycle) -> &'static str
    ensures { result.now ≡ transition_of lifecycle }
{
    match lifecycle {
        Lifecycle::Start => "start",
        Lifecycle::Complete => "complete",
        Lifecycle::Fail => "ate_abort",
        Lifecycle::Late | Lifecycle::Undone => "unknown",
    }
}

/// A truth value, in XML and in SQL.
pub(crate) fn true_false(holds: bool) -> &'static str
    ensures { result.now ≡ true_false holds }
{
    if holds { "true" } else { "false" }
}
