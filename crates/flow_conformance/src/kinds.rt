use crate::cause::Cause;
use crate::findings::Findings;
use std::alloc::{AllocError, Global};
use std::collections::HashMap;

/// Cases that deviate at the same event for the same cause: how many, and the first of them.
#[derive(Clone, Copy)]
pub(crate) struct Kind {
    pub(crate) event: u32,
    pub(crate) cause: Cause,
    pub(crate) cases: u64,
    pub(crate) first: usize,
}

/// At which event, and why.
#[derive(Clone, Copy, PartialEq, Eq, Hash)]
struct Spot {
    event: u32,
    cause: Cause,
}

/// The kinds so far, and the place of each by its spot.
#[derive(Drop)]
struct Table {
    kinds: Vec<Kind>,
    places: HashMap<Spot, usize>,
}

impl Table {
    /// The place of the kind of a spot, which is added if it is new.
    fn place_of(&mut self, spot: Spot, case: usize) -> Result<usize, AllocError> {
        if let Some(place) = self.places.get(&spot) {
            return Ok(*place);
        }
        let place = self.kinds.len();
        self.places.insert(spot, place)?;
        self.kinds.push(Kind {
            event: spot.event,
            cause: spot.cause,
            cases: 0,
            first: case,
        })?;
        Ok(place)
    }

    /// Counts a case of that kind.
    fn count(&mut self, place: usize) {
        if let Some(kind) = self.kinds.get_mut(place) {
            kind.cases = kind.cases.wrapping_add(1);
        }
    }
}

/// At which event and why a case deviates, if it does.
fn spot_of(found: &Findings, case: usize) -> Option<Spot> {
    let finding = found.of_case(case)?;
    let event = found.event_of(case)?;
    let cause = finding.cause?;
    Some(Spot { event, cause })
}

/// The kinds in the order of the first case of each.
fn kinds_in_order(alloc: Global, found: &Findings) -> Result<Vec<Kind>, AllocError> {
    let mut table = Table {
        kinds: Vec::new(alloc),
        places: HashMap::new(alloc),
    };
    for case in 0..found.cases.of_cases.len() {
        if let Some(spot) = spot_of(found, case) {
            let place = table.place_of(spot, case)?;
            table.count(place);
        }
    }
    let Table { kinds, places } = table;
    drop(places);
    Ok(kinds)
}

/// The kinds of deviation, those of the most cases first.
pub(crate) fn kinds_of(alloc: Global, found: &Findings) -> Result<Vec<Kind>, AllocError> {
    let mut kinds = kinds_in_order(alloc, found)?;
    kinds.sort_by_key(|kind| u64::MAX.wrapping_sub(kind.cases))?;
    Ok(kinds)
}
