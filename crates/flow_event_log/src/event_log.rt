ghost use Rattle.std.specs.Prelude.{◌≡◌, length, Some, IfOk, OnOk, OnErr, slice_get};
ghost use Rattle.flow_event_log.specs.Numbers.{IsNumberedIn};
ghost use Rattle.flow_event_log.specs.Rows.{AreNumbered};

use crate::names::Names;
use crate::names_key::NamesKey;
use std::alloc::{AllocError, Global};

/// What was done in a case: numbers of the log's cases and activities, and the line of the file, from 1.
#[derive(Clone, Copy)]
pub struct Event {
    pub case: u32,
    pub activity: u32,
    pub line: u32,
}

/// The events of a log, in the order in which they happened.
#[derive(Drop)]
pub struct EventLog {
    cases: Names,
    activities: Names,
    events: Vec<Event>,
    ghost numbered: { AreNumbered (length cases) (length activities) events.items },
}

/// How many buckets there are for the names of cases, and for those of activities.
const CASE_BUCKETS: usize = 1_048_576;

const ACTIVITY_BUCKETS: usize = 4096;

/// The number of a case, which it is given now if it did not come before. Mostly it is that of the last event.
fn case_number(names: &mut Names, last: Option<&Event>, name: &[u8]) -> Result<u32, AllocError>
    ensures number { IfOk result (λ number. slice_get names.new number ≡ Some name.now) }
    ensures names { OnOk result (IsNumberedIn names.old name.now names.new) }
    ensures err { OnErr result (names.new ≡ names.old) }
{
    if let Some(last) = last {
        if let Some(text) = names.get(last.case as usize) {
            if text == name {
                return Ok(last.case);
            }
        }
    }
    names.number_of(name)
}

impl EventLog {
    ghost use Rattle.std.specs.Prelude.{◌≡◌, ◌∷◌, ◌++◌, [], ℕ, OnOk, IfOk, IfSome, IfNone, Some, slice_get};
    ghost use Rattle.flow_event_log.specs.Logs.{cases_in, activities_in, events_in, rows_in};
    ghost use Rattle.flow_event_log.specs.Numbers.{IsNumberedIn};

    /// A log of no event.
    pub fn new(alloc: Global) -> Result<EventLog, AllocError>
        ensures { IfOk result (λ log. rows_in log ≡ []) }
    {
        EventLog::with_key(alloc, NamesKey::new(0, 0))
    }

    /// A log of no event. Its names are hashed by that key.
    pub fn with_key(alloc: Global, key: NamesKey) -> Result<EventLog, AllocError>
        ensures rows { IfOk result (λ log. rows_in log ≡ []) }
        ensures cases { IfOk result (λ log. cases_in log ≡ []) }
        ensures activities { IfOk result (λ log. activities_in log ≡ []) }
    {
        Ok(EventLog {
            cases: Names::with_key(alloc, key, CASE_BUCKETS)?,
            activities: Names::with_key(alloc, key, ACTIVITY_BUCKETS)?,
            events: Vec::new(alloc),
        })
    }

    /// The names of the cases, in the order in which they came.
    pub fn cases(&self) -> &Names
        ensures { result.now ≡ cases_in self.now }
    {
        &self.cases
    }

    /// The names of the activities, in the order in which they came.
    pub fn activities(&self) -> &Names
        ensures { result.now ≡ activities_in self.now }
    {
        &self.activities
    }

    /// How many events there are.
    pub fn len(&self) -> usize
        ensures { result ≡ length (rows_in self.now) }
    {
        self.events.len()
    }

    /// The events in the order in which they happened.
    pub fn events(&self) -> &[Event]
        ensures events { result.now ≡ events_in self.now }
        ensures numbered { AreNumbered (length (cases_in self.now)) (length (activities_in self.now)) result.now }
    {
        self.events.as_slice()
    }

    /// Notes one more event, and gives the number of its case.
    pub fn note(&mut self, case: &[u8], activity: &[u8], line: u32) -> Result<u32, AllocError>
        ensures rows { OnOk result (rows_in self.new ≡ rows_in self.old ++ (case.now, activity.now) ∷ []) }
        ensures case { IfOk result (λ number. slice_get (cases_in self.new) number ≡ Some case.now) }
        ensures cases { OnOk result (IsNumberedIn (cases_in self.old) case.now (cases_in self.new)) }
        ensures activities { OnOk result (IsNumberedIn (activities_in self.old) activity.now (activities_in self.new)) }
    {
        let case = case_number(&mut self.cases, self.events.last(), case)?;
        let activity = self.activities.number_of(activity)?;
        self.events.push(Event {
            case,
            activity,
            line,
        })?;
        Ok(case)
    }

    /// Notes one more event where its names are among those that came of late, and gives the number of its case. Else nothing
    /// changes.
    pub(crate) fn note_recalled(
        &mut self,
        case: &[u8],
        activity: &[u8],
        line: u32,
    ) -> Result<Option<u32>, AllocError>
        ensures rows { IfOk result (λ known. IfSome known (λ number. rows_in self.new ≡ rows_in self.old ++ (case.now, activity.now) ∷ [])) }
        ensures case { IfOk result (λ known. IfSome known (λ number. slice_get (cases_in self.new) number ≡ Some case.now)) }
        ensures known { IfOk result (λ known. IfSome known (λ number. (activity_number : ℕ) × (slice_get (activities_in self.new) activity_number ≡ Some activity.now))) }
        ensures names { IfOk result (λ known. (cases_in self.new ≡ cases_in self.old) × (activities_in self.new ≡ activities_in self.old)) }
        ensures unknown { IfOk result (λ known. IfNone known (self.new ≡ self.old)) }
    {
        let Some(number) = self.cases.recall(case) else {
            return Ok(None);
        };
        let Some(activity) = self.activities.recall(activity) else {
            return Ok(None);
        };
        self.events.push(Event {
            case: number,
            activity,
            line,
        })?;
        Ok(Some(number))
    }

    /// Puts the events in this order of their places.
    pub(crate) fn put_in_order(&mut self, places: &[u32]) -> Result<(), AllocError> {
        let alloc = *self.events.allocator();
        let events = events_at(
            alloc,
            self.events.as_slice(),
            places,
            self.cases.len(),
            self.activities.len(),
        )?;
        self.events = events;
        Ok(())
    }
}

/// The events at these places. A place at which there is none counts for nothing.
fn events_at(
    alloc: Global,
    events: &[Event],
    places: &[u32],
    cases: usize,
    activities: usize,
) -> Result<Vec<Event>, AllocError>
    requires { AreNumbered cases activities events.now }
    ensures { IfOk result (λ found. AreNumbered cases activities found.items) }
{
    let mut found = Vec::with_capacity(alloc, places.len())?;
    for place in places {
        if let Some(event) = events.get(*place as usize) {
            found.push(*event)?;
        }
    }
    Ok(found)
}

/// The places of times from the earliest on. Those of one time stay in their order.
pub(crate) fn places_by_time(alloc: Global, times: &[u64]) -> Result<Vec<u32>, AllocError> {
    let mut order = Vec::with_capacity(alloc, times.len())?;
    for place in 0..times.len() {
        let Ok(number) = u32::try_from(place) else {
            return Err(AllocError);
        };
        order.push(number)?;
    }
    order.sort_by_key(|place| times.get(*place as usize).copied().unwrap_or(0))?;
    Ok(order)
}
