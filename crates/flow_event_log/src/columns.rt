use crate::fault::Column;
use csv::ByteRecord;

/// The columns that are asked for by name. A time of no letter is no time.
#[derive(Clone, Copy, Drop)]
pub struct Wanted<'a> {
    pub case: Option<&'a str>,
    pub activity: Option<&'a str>,
    pub time: Option<&'a str>,
}

/// Where the columns stand in each row, from 0.
#[derive(Clone, Copy)]
pub struct Columns {
    pub case: usize,
    pub activity: usize,
    pub time: Option<usize>,
}

/// What logs call their columns.
const CASES: [&str; 4] = ["case", "case_id", "caseid", "case:concept:name"];

const ACTIVITIES: [&str; 4] = ["activity", "event", "task", "concept:name"];

const TIMES: [&str; 3] = ["time", "timestamp", "time:timestamp"];

/// The first column of that name, whatever the case of its letters.
fn column_called(header: &ByteRecord, name: &str) -> Option<usize> {
    for place in 0..header.len() {
        if let Some(field) = header.get(place) {
            if field.eq_ignore_ascii_case(name.as_bytes()) {
                return Some(place);
            }
        }
    }
    None
}

/// The column that has the name which is asked for; where none is asked for, the first of the usual names that is there.
fn column(header: &ByteRecord, wanted: Option<&str>, usual: &[&str]) -> Option<usize> {
    if let Some(name) = wanted {
        return column_called(header, name);
    }
    for name in usual {
        if let Some(place) = column_called(header, name) {
            return Some(place);
        }
    }
    None
}

impl Columns {
    /// The columns of a log by its first row; else the one that is not there.
    pub(crate) fn of(header: &ByteRecord, wanted: &Wanted<'_>) -> Result<Columns, Column> {
        let Some(case) = column(header, wanted.case, &CASES) else {
            return Err(Column::Case);
        };
        let Some(activity) = column(header, wanted.activity, &ACTIVITIES) else {
            return Err(Column::Activity);
        };
        let time = match wanted.time {
            Some("") => None,
            Some(name) => match column_called(header, name) {
                Some(place) => Some(place),
                None => return Err(Column::Time),
            },
            None => column(header, None, &TIMES),
        };
        Ok(Columns {
            case,
            activity,
            time,
        })
    }
}
