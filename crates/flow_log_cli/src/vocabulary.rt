ghost use Rattle.std.specs.Prelude.{◌≡◌, ◌<◌, ◌+◌, ◌^◌, ◌++◌, [], ℕ, List, length, map, IfOk, OnOk};
ghost use Rattle.flow_log_cli.specs.Activities.{Spells, StandsByName, StandsFor, StandFor};
ghost use Rattle.flow_log_cli.specs.Noted.{AreSpelled, AreMapped, IsVocabulary};
ghost use Rattle.flow_log_cli.specs.Told.{texts_of};

use crate::first_numbers::FirstNumbers;
use crate::renaming::Renaming;
use flow_conformance::Labels;
use flow_event_log::{Names, spelled};
use flow_facts::Name;
use flow_workflow::Workflow;
use std::alloc::{AllocError, Global};

/// The events of a workflow, and the number of the first event of each spelling.
#[derive(Drop)]
pub(crate) struct Vocabulary<'a> {
    events: &'a [Name],
    table: FirstNumbers,
}

/// How many buckets there are for the spellings of events.
const BUCKETS: usize = 8192;

/// Notes the spelling of each event.
fn note_spellings(
    alloc: Global,
    events: &[Name],
    table: &mut FirstNumbers,
) -> Result<(), AllocError>
    requires few { length events.now < 2 ^ 31 }
    requires names { table.old.names ≡ [] }
    requires numbers { table.old.numbers.items ≡ [] }
    ensures { OnOk result (AreSpelled events.now (length events.now) table.new.names table.new.numbers.items) }
{
    for place in 0..events.len() {
        let spelling = spelled(alloc, events[place].bytes())?;
        table.note(spelling.as_slice(), place as u32)?;
    }
    Ok(())
}

impl<'a> Vocabulary<'a> {
    /// The events of a workflow. Of two that are spelled alike the first counts.
    pub(crate) fn new(alloc: Global, workflow: &'a Workflow) -> Result<Vocabulary<'a>, AllocError>
        ensures events { IfOk result (λ vocabulary. vocabulary.events.now ≡ workflow.now.events) }
        ensures spelled { IfOk result IsVocabulary }
    {
        let events = workflow.events();
        let mut table = FirstNumbers::new(alloc, BUCKETS)?;
        note_spellings(alloc, events, &mut table)?;
        Ok(Vocabulary { events, table })
    }

    /// The event that is spelled like the name.
    pub(crate) fn event_spelled(
        &self,
        alloc: Global,
        name: &[u8],
    ) -> Result<Option<u32>, AllocError>
        requires { IsVocabulary self.now }
        ensures { IfOk result (Spells self.now.events.now name.now) }
    {
        let spelling = spelled(alloc, name)?;
        Ok(self.table.get(spelling.as_slice()))
    }
}

/// A number behind those of the events.
fn number_behind(events: usize, place: usize) -> Result<u32, AllocError>
    ensures { IfOk result (λ number. number ≡ events + place) }
{
    let Some(number) = events.checked_add(place) else {
        return Err(AllocError);
    };
    match u32::try_from(number) {
        Ok(number) => Ok(number),
        Err(_) => Err(AllocError),
    }
}

/// The event of an activity by its name; else a number behind those of the events.
fn event_by_name(
    alloc: Global,
    vocabulary: &Vocabulary<'_>,
    activity: &[u8],
    place: usize,
) -> Result<u32, AllocError>
    requires { IsVocabulary vocabulary.now }
    ensures { IfOk result (StandsByName vocabulary.now.events.now place activity.now) }
{
    match vocabulary.event_spelled(alloc, activity)? {
        Some(event) => Ok(event),
        None => number_behind(vocabulary.events.len(), place),
    }
}

/// The event of an activity by the map, else by its name.
fn event_of(
    alloc: Global,
    vocabulary: &Vocabulary<'_>,
    renaming: &Renaming,
    activity: &[u8],
    place: usize,
) -> Result<u32, AllocError>
    requires { IsVocabulary vocabulary.now }
    ensures { (rows : List (List (List ℕ))) → AreMapped vocabulary.now.events.now rows renaming.now.table.names renaming.now.table.numbers.items →
        IfOk result (StandsFor vocabulary.now.events.now rows place activity.now) }
{
    match renaming.event_of(activity) {
        Some(event) => Ok(event),
        None => event_by_name(alloc, vocabulary, activity, place),
    }
}

/// The event of each activity of a log. One that is no event of the workflow has a number of its own behind the events.
pub(crate) fn events_of_activities(
    alloc: Global,
    vocabulary: &Vocabulary<'_>,
    renaming: &Renaming,
    activities: &Names,
) -> Result<Vec<u32>, AllocError>
    requires { IsVocabulary vocabulary.now }
    ensures stand { (rows : List (List (List ℕ))) → AreMapped vocabulary.now.events.now rows renaming.now.table.names renaming.now.table.numbers.items →
        IfOk result (λ events. StandFor vocabulary.now.events.now rows activities.now events.items) }
    ensures count { IfOk result (λ events. length events.items ≡ length activities.now) }
{
    let mut events = Vec::with_capacity(alloc, activities.len())?;
    for place in 0..activities.len() {
        let Some(activity) = activities.get(place) else {
            return Err(AllocError);
        };
        let event = event_of(alloc, vocabulary, renaming, activity, place)?;
        events.push(event)?;
    }
    Ok(events)
}

/// Adds the names of events.
fn add_events(alloc: Global, names: &mut Vec<Vec<u8>>, events: &[Name]) -> Result<(), AllocError>
    ensures { OnOk result (texts_of names.new.items ≡ texts_of names.old.items ++ events.now) }
{
    for place in 0..events.len() {
        let text = Vec::from_slice(alloc, events[place].bytes())?;
        names.push(text)?;
    }
    Ok(())
}

/// Adds the names of activities.
fn add_activities(
    alloc: Global,
    names: &mut Vec<Vec<u8>>,
    activities: &Names,
) -> Result<(), AllocError>
    ensures { OnOk result (texts_of names.new.items ≡ texts_of names.old.items ++ activities.now) }
{
    for place in 0..activities.len() {
        let Some(activity) = activities.get(place) else {
            return Err(AllocError);
        };
        let text = Vec::from_slice(alloc, activity)?;
        names.push(text)?;
    }
    Ok(())
}

/// The names of events, and behind them those of the activities.
pub(crate) fn labels_of(
    alloc: Global,
    workflow: &Workflow,
    activities: &Names,
) -> Result<Labels, AllocError>
    ensures { IfOk result (λ labels. texts_of labels.names.items ≡ workflow.now.events ++ activities.now) }
{
    let mut names = Vec::new(alloc);
    add_events(alloc, &mut names, workflow.events())?;
    add_activities(alloc, &mut names, activities)?;
    Ok(Labels { names })
}
