ghost use Rattle.std.specs.Prelude.{◌≡◌};

use crate::moment::Dates;
use std::alloc::{AllocError, Global};

/// Why a time is refused.
#[derive(Clone, Copy)]
pub(crate) enum TimeFault {
    Bad,
    Mixed,
    NoMemory,
}

impl From<AllocError> for TimeFault {
    fn from(_error: AllocError) -> TimeFault {
        TimeFault::NoMemory
    }
}

/// The times of a log's events, and whether those of each case are in order so far.
#[derive(Drop)]
pub(crate) struct Timeline {
    of_events: Vec<u64>,
    /// The last time of each case.
    of_cases: Vec<u64>,
    zoned: Option<bool>,
    in_order: bool,
    dates: Dates,
}

impl Timeline {
    pub(crate) fn new(alloc: Global) -> Timeline {
        Timeline {
            of_events: Vec::new(alloc),
            of_cases: Vec::new(alloc),
            zoned: None,
            in_order: true,
            dates: Dates::new(),
        }
    }

    /// Notes the time of the next event, which is of that case.
    pub(crate) fn note(&mut self, case: u32, text: &[u8]) -> Result<(), TimeFault> {
        let Some(moment) = self.dates.moment_in(text) else {
            return Err(TimeFault::Bad);
        };
        if self.zoned.is_some_and(|zoned| zoned != moment.zoned) {
            return Err(TimeFault::Mixed);
        }
        self.zoned = Some(moment.zoned);
        let time = moment.microseconds;
        match self.of_cases.get_mut(case as usize) {
            Some(last) => {
                if time < *last {
                    self.in_order = false;
                } else {
                    *last = time;
                }
            }
            None => match self.of_cases.push(time) {
                Ok(()) => {}
                Err(_) => return Err(TimeFault::NoMemory),
            },
        }
        match self.of_events.push(time) {
            Ok(()) => Ok(()),
            Err(_) => Err(TimeFault::NoMemory),
        }
    }

    /// Whether the events of each case are in the order of their times.
    pub(crate) fn is_in_order(&self) -> bool {
        self.in_order
    }

    /// The time of an event.
    pub(crate) fn times(&self) -> &[u64]
        ensures { result.now ≡ self.now.of_events.items }
    {
        self.of_events.as_slice()
    }
}
