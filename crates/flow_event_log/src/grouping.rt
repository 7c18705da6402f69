ghost use Rattle.std.specs.Prelude.{◌≡◌, ◌<◌, ◌≤◌, ℕ, [], map, length, slice_index, IfOk, OnOk};
ghost use Rattle.flow_event_log.specs.Rows.{AreNumbered};
ghost use Rattle.flow_event_log.specs.Logs.{cases_in, activities_in, events_in};
ghost use Rattle.flow_event_log.specs.Grouped.{entry_of, AreCases};
ghost use Rattle.flow_event_log.specs.Ends.{AreEnds, ArePlaced, HavePlaces, StandsAt};

use crate::event_log::{Event, EventLog};
use crate::sequences::Sequences;
use std::alloc::{AllocError, Global};

/// The cases of a log, each by the number of its sequence of events. Sequences that differ stand once, in the order of the first case of each.
#[derive(Drop)]
pub struct Cases {
    pub of_cases: Vec<u32>,
    pub sequences: Vec<Vec<u32>>,
}

/// The number of the sequence of each case, in a tree of sequences that is made for them.
fn ends_of(
    alloc: Global,
    cases: usize,
    events: &[Event],
    events_of: &[u32],
    tree: &mut Sequences,
) -> Result<Vec<u32>, AllocError>
    requires empty { tree.old.steps.items ≡ [] }
    requires numbered { AreNumbered cases (length events_of.now) events.now }
    ensures { IfOk result (λ ends. AreEnds cases (map (entry_of events_of.now) events.now) tree.new.steps.items ends.items) }
{
    let mut ends = Vec::from_elem(alloc, 0u32, cases)?;
    for event in events {
        let case = event.case as usize;
        let end = tree.longer(ends[case], events_of[event.activity as usize])?;
        ends[case] = end;
    }
    Ok(ends)
}

/// The sequence of each case. `events_of` gives the event of each activity, by their numbers.
pub fn group(alloc: Global, log: &EventLog, events_of: &[u32]) -> Result<Cases, AllocError>
    requires { length (activities_in log.now) ≤ length events_of.now }
    ensures { IfOk result (λ cases. AreCases (length (cases_in log.now)) (map (entry_of events_of.now) (events_in log.now)) cases.of_cases.items cases.sequences.items) }
{
    let mut tree = Sequences::new(alloc, log.cases().key())?;
    let ends = ends_of(alloc, log.cases().len(), log.events(), events_of, &mut tree)?;
    let cases = numbered_ends(alloc, &tree, &ends)?;
    Ok(cases)
}

/// The place of a sequence of the tree in the list, at the end of which it is put now if it has none. `places` has the place plus one.
fn place_of(
    alloc: Global,
    tree: &Sequences,
    end: u32,
    places: &mut Vec<u32>,
    sequences: &mut Vec<Vec<u32>>,
) -> Result<u32, AllocError>
    requires known { end ≤ length tree.now.steps.items }
    requires placed { ArePlaced tree.now.steps.items places.old.items sequences.old.items }
    ensures place { IfOk result (StandsAt tree.now.steps.items sequences.new.items end) }
    ensures placed { OnOk result (ArePlaced tree.now.steps.items places.new.items sequences.new.items) }
    ensures kept { OnOk result ((number place : ℕ) → StandsAt tree.now.steps.items sequences.old.items number place → StandsAt tree.now.steps.items sequences.new.items number place) }
{
    let place = places[end as usize];
    if place != 0 {
        return Ok(place - 1);
    }
    let Ok(number) = u32::try_from(sequences.len()) else {
        return Err(AllocError);
    };
    let Some(next) = number.checked_add(1) else {
        return Err(AllocError);
    };
    let events = tree.events(alloc, end)?;
    sequences.push(events)?;
    places[end as usize] = next;
    Ok(number)
}

/// The sequences that cases come to, each once, and which of them each case has.
fn numbered_ends(alloc: Global, tree: &Sequences, ends: &[u32]) -> Result<Cases, AllocError>
    requires { (k : ℕ) → k < length ends.now → slice_index ends.now k ≤ length tree.now.steps.items }
    ensures { IfOk result (λ cases. HavePlaces tree.now.steps.items ends.now cases.sequences.items (length ends.now) cases.of_cases.items) }
{
    let mut places = Vec::from_elem(alloc, 0u32, tree.count())?;
    let mut sequences = Vec::new(alloc);
    let mut of_cases = Vec::with_capacity(alloc, ends.len())?;
    for end in ends {
        let place = place_of(alloc, tree, *end, &mut places, &mut sequences)?;
        of_cases.push(place)?;
    }
    Ok(Cases {
        of_cases,
        sequences,
    })
}
