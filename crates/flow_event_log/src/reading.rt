ghost use Rattle.std.specs.Prelude.{◌≡◌, ◌+◌, ◌++◌, ◌∷◌, [], ℕ, List, Some, length, IfOk, OnOk, OnErr, IfSome, IfNone, false};
ghost use Rattle.csv.specs.Reading.{Reached, AreRecords, Ready, default_config, reader_config, reader_state, reader_trim, source_of, strip_bom};
ghost use Rattle.csv.specs.Records.{fields_of};
ghost use Rattle.csv.specs.declared.parser.State.TheVariants as st;
ghost use Rattle.csv.specs.declared.reader.Trim.TheVariants as trim;
ghost use Rattle.flow_event_log.specs.Logs.{rows_in};
ghost use Rattle.flow_event_log.specs.Taken.{HasFields, HasNames, IsName, IsReadFrom, IsTaken, IsTakenFrom, TakesUp, header_of, texts_of};

use crate::columns::{Columns, Wanted};
use crate::event_log::{EventLog, places_by_time};
use crate::fault::{LogFault, LogRefusal};
use crate::names_key::NamesKey;
use crate::timeline::{TimeFault, Timeline};
use csv::{ByteRecord, Reader, ReaderBuilder};
use std::alloc::{AllocError, Global};
use std::io::Read;

/// What is wrong with a row.
#[derive(Clone, Copy, PartialEq, Eq, Debug)]
pub enum Flaw {
    /// It has fewer fields than its case, its activity or its time needs.
    TooFewFields,
    /// Its case or its activity has no letter.
    Empty,
    /// Its case or its activity is not UTF-8.
    NotText,
}

/// A row that is left out, and its line, from 1.
#[derive(Clone, Copy, Drop)]
pub struct BadRow {
    pub line: u64,
    pub flaw: Flaw,
}

/// How many bad rows are told one by one.
const MOST_TOLD: usize = 20;

/// A log that was read.
#[derive(Drop)]
pub struct Reading {
    pub log: EventLog,
    pub columns: Columns,
    /// The names of all columns.
    pub header: Vec<Vec<u8>>,
    /// The first rows that were left out.
    pub bad_rows: Vec<BadRow>,
    /// How many rows were left out.
    pub left_out: u64,
    /// Whether the events of some case stood in another order in the file than their times.
    pub was_sorted: bool,
}

/// Whether a name is a text of some letters.
fn flaw_of(name: &[u8]) -> Option<Flaw>
    ensures good { IfNone result (IsName name.now) }
    ensures bad { IfSome result (λ _. ¬ (IsName name.now)) }
{
    if name.is_empty() {
        Some(Flaw::Empty)
    } else if str::from_utf8(name).is_err() {
        Some(Flaw::NotText)
    } else {
        None
    }
}

/// Whether both names are texts of some letters.
fn flaw_of_names(case: &[u8], activity: &[u8]) -> Option<Flaw>
    ensures good { IfNone result (IsName case.now × IsName activity.now) }
    ensures bad { IfSome result (λ _. ¬ (IsName case.now × IsName activity.now)) }
{
    match flaw_of(case) {
        Some(flaw) => Some(flaw),
        None => flaw_of(activity),
    }
}

/// The fields of a row that count.
#[derive(Clone, Copy)]
struct Row<'a> {
    case: &'a [u8],
    activity: &'a [u8],
    time: &'a [u8],
}

/// The fields of a row that count, if it has them.
fn row_in<'a>(record: &'a ByteRecord, columns: &Columns) -> Option<Row<'a>>
    ensures some { IfSome result (λ row. HasFields columns.now (fields_of «record».now) row.case.now row.activity.now) }
    ensures none { IfNone result ((case activity : List ℕ) → ¬ (HasFields columns.now (fields_of «record».now) case activity)) }
{
    let Some(case) = record.get(columns.case) else {
        return None;
    };
    let Some(activity) = record.get(columns.activity) else {
        return None;
    };
    let time = match columns.time {
        Some(place) => record.get(place)?,
        None => case,
    };
    Some(Row {
        case,
        activity,
        time,
    })
}

/// The names of the columns.
fn names_in(alloc: Global, record: &ByteRecord) -> Result<Vec<Vec<u8>>, LogFault>
    ensures { IfOk result (λ names. texts_of names.items ≡ fields_of «record».now) }
{
    let mut names = Vec::new(alloc);
    for place in 0..record.len() {
        let Some(name) = record.get(place) else {
            return Err(LogFault::NoMemory);
        };
        let text = Vec::from_slice(alloc, name)?;
        names.push(text)?;
    }
    Ok(names)
}

/// The line at which a record began. Where lines end in CR LF, the reader has not counted the LF before it.
fn line_of(record: &ByteRecord, uncounted: u64) -> u64 {
    match record.position() {
        Some(position) => position.line.saturating_add(uncounted),
        None => 0,
    }
}

impl Reading {
    /// Nothing read so far but the first row.
    fn of_header(
        alloc: Global,
        record: &ByteRecord,
        wanted: &Wanted<'_>,
        key: NamesKey,
    ) -> Result<Reading, LogFault>
        ensures header { IfOk result (λ reading. header_of reading ≡ fields_of «record».now) }
        ensures rows { IfOk result (λ reading. rows_in reading.log ≡ []) }
        ensures names { IfOk result (λ reading. HasNames reading.log) }
        ensures none { IfOk result (λ reading. (reading.left_out ≡ 0) × (reading.was_sorted ≡ false)) }
    {
        let header = names_in(alloc, record)?;
        match Columns::of(record, wanted) {
            Ok(columns) => Ok(Reading {
                log: EventLog::with_key(alloc, key)?,
                columns,
                header,
                bad_rows: Vec::new(alloc),
                left_out: 0,
                was_sorted: false,
            }),
            Err(column) => Err(LogFault::Refused(LogRefusal::NoColumn { column, header })),
        }
    }

    /// Leaves a row out.
    fn leave_out(&mut self, line: u64, flaw: Flaw) -> Result<(), LogFault>
        ensures { OnOk result (self.new ≡ record self.old { bad_rows = self.new.bad_rows; left_out = self.old.left_out + 1 }) }
    {
        let Some(left_out) = self.left_out.checked_add(1) else {
            return Err(LogFault::NoMemory);
        };
        self.left_out = left_out;
        if self.bad_rows.len() < MOST_TOLD {
            self.bad_rows.push(BadRow { line, flaw })?;
        }
        Ok(())
    }

    /// Takes a row in, or leaves it out where it is bad.
    fn take(
        &mut self,
        record: &ByteRecord,
        timeline: &mut Timeline,
        uncounted: u64,
    ) -> Result<(), LogFault>
        requires { HasNames self.old.log }
        ensures { OnOk result (TakesUp self.old (fields_of «record».now) self.new) }
    {
        let line = line_of(record, uncounted);
        let Some(row) = row_in(record, &self.columns) else {
            return self.leave_out(line, Flaw::TooFewFields);
        };
        let Ok(number) = u32::try_from(line) else {
            return Err(LogFault::Refused(LogRefusal::TooLong { line }));
        };
        match note_row(&mut self.log, row.case, row.activity, number)? {
            Ok(case) => note_time(timeline, self.columns.time.is_some(), case, row.time, line),
            Err(flaw) => self.leave_out(line, flaw),
        }
    }
}

/// Notes a row whose names are good, and gives the number of its case. Else nothing changes.
fn note_row(
    log: &mut EventLog,
    case: &[u8],
    activity: &[u8],
    line: u32,
) -> Result<Result<u32, Flaw>, AllocError>
    requires { HasNames log.old }
    ensures row { IfOk result (λ noted. OnOk noted (rows_in log.new ≡ rows_in log.old ++ (case.now, activity.now) ∷ [])) }
    ensures good { IfOk result (λ noted. OnOk noted (IsName case.now × IsName activity.now)) }
    ensures names { IfOk result (λ noted. OnOk noted (HasNames log.new)) }
    ensures bad { IfOk result (λ noted. OnErr noted (¬ (IsName case.now × IsName activity.now))) }
    ensures kept { IfOk result (λ noted. OnErr noted (log.new ≡ log.old)) }
{
    if let Some(number) = log.note_recalled(case, activity, line)? {
        // a name that came was looked at when it came first
        return Ok(Ok(number));
    }
    match flaw_of_names(case, activity) {
        Some(flaw) => Ok(Err(flaw)),
        None => Ok(Ok(log.note(case, activity, line)?)),
    }
}

/// Notes the time of a row, if the log has times.
fn note_time(
    timeline: &mut Timeline,
    timed: bool,
    case: u32,
    text: &[u8],
    line: u64,
) -> Result<(), LogFault> {
    if !timed {
        return Ok(());
    }
    match timeline.note(case, text) {
        Ok(()) => Ok(()),
        Err(TimeFault::Bad) => Err(LogFault::Refused(LogRefusal::BadTime { line })),
        Err(TimeFault::Mixed) => Err(LogFault::Refused(LogRefusal::MixedTimes { line })),
        Err(TimeFault::NoMemory) => Err(LogFault::NoMemory),
    }
}

/// Takes all rows in that are left, until the reader ends.
fn take_rows<R: Read + Drop>(
    reader: &mut Reader<R>,
    record: &mut ByteRecord,
    reading: &mut Reading,
    timeline: &mut Timeline,
    uncounted: u64,
) -> Result<(), LogFault>
    requires names { HasNames reading.old.log }
    requires rows { rows_in reading.old.log ≡ [] }
    requires none { reading.old.left_out ≡ 0 }
    requires config { reader_config reader.old ≡ default_config }
    requires trim { reader_trim reader.old ≡ trim.None }
    requires ready { Ready reader.old }
    ensures taken { OnOk result ((xs ys : List ℕ) (first : List (List (List ℕ))) → source_of R.remaining reader.old ≡ Some ys → Reached default_config st.StartRecord xs first (reader_state reader.old) ys →
        (records : List (List (List ℕ))) × AreRecords default_config st.StartRecord xs (first ++ records) × IsTakenFrom reading.new.columns records (rows_in reading.new.log) reading.new.left_out) }
    ensures kept { OnOk result ((header_of reading.new ≡ header_of reading.old) × (reading.new.was_sorted ≡ reading.old.was_sorted)) }
{
    'rows: for _row in 0..u64::MAX {
        match reader.read_byte_record(record) {
            Ok(true) => reading.take(record, timeline, uncounted)?,
            Ok(false) => return Ok(()),
            Err(error) => return Err(LogFault::from(error)),
        }
    }
    Err(LogFault::NoMemory)
}

/// Puts the events in the order of their times where those of some case are not.
fn put_in_order(alloc: Global, reading: &mut Reading, timeline: &Timeline) -> Result<(), LogFault>
    requires { reading.old.was_sorted ≡ false }
    ensures unsorted { OnOk result (reading.new.was_sorted ≡ false → reading.new ≡ reading.old) }
    ensures kept { OnOk result (header_of reading.new ≡ header_of reading.old) }
{
    if timeline.is_in_order() {
        return Ok(());
    }
    let places = places_by_time(alloc, timeline.times())?;
    reading.log.put_in_order(&places)?;
    reading.was_sorted = true;
    Ok(())
}

/// Reads a log by a reader that has read nothing yet.
fn read_by<R: Read + Drop>(
    alloc: Global,
    reader: &mut Reader<R>,
    wanted: &Wanted<'_>,
    key: NamesKey,
) -> Result<Reading, LogFault>
    requires config { reader_config reader.old ≡ default_config }
    requires trim { reader_trim reader.old ≡ trim.None }
    requires ready { Ready reader.old }
    requires begun { reader_state reader.old ≡ st.StartRecord }
    ensures { (text : List ℕ) → source_of R.remaining reader.old ≡ Some (strip_bom text) → IfOk result (IsReadFrom text) }
{
    let mut record = ByteRecord::new(alloc);
    match reader.read_byte_record(&mut record) {
        Ok(true) => {}
        Ok(false) => return Err(LogFault::Refused(LogRefusal::Empty)),
        Err(error) => return Err(LogFault::from(error)),
    }
    let mut reading = Reading::of_header(alloc, &record, wanted, key)?;
    let mut timeline = Timeline::new(alloc);
    let uncounted = if reader.position().line < 2 { 1 } else { 0 };
    take_rows(reader, &mut record, &mut reading, &mut timeline, uncounted)?;
    put_in_order(alloc, &mut reading, &timeline)?;
    Ok(reading)
}

/// Reads a log: a CSV whose first row names the columns, with a row for each event.
pub fn read_log<R: Read + Drop>(
    alloc: Global,
    source: R,
    wanted: &Wanted<'_>,
) -> Result<Reading, LogFault>
    ensures { (text : List ℕ) → R.remaining source ≡ Some text → IfOk result (IsReadFrom text) }
{
    read_log_with_key(alloc, source, wanted, NamesKey::new(0, 0))
}

/// The same, for a log of strangers: these are not to know the key, by which names are hashed.
pub fn read_log_with_key<R: Read + Drop>(
    alloc: Global,
    source: R,
    wanted: &Wanted<'_>,
    key: NamesKey,
) -> Result<Reading, LogFault>
    ensures { (text : List ℕ) → R.remaining source ≡ Some text → IfOk result (IsReadFrom text) }
{
    let mut reader = ReaderBuilder::new()
        .has_headers(false)
        .flexible(true)
        .from_reader(alloc, source);
    read_by(alloc, &mut reader, wanted, key)
}
