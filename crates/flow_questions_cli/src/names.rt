//! The events of which a question speaks, by their names.
ghost use Rattle.std.specs.Prelude.{◌≡◌, ◌≢◌, IfOk, IfErr};
ghost use Rattle.std.specs.Option.{option_copied};
ghost use Rattle.std.specs.List.{find};
ghost use Rattle.flow_model.specs.Lists.{◌∈◌};
ghost use Rattle.flow_workflow.specs.Numbers.{event_number};
ghost use Rattle.flow_fault.specs.Near.{is_near};
ghost use Rattle.flow_questions_cli.specs.Stops.{IsNoEvent, IsNoPair};

use crate::stop::QuestionStop;
use flow_facts::Name;
use flow_fault::is_near;
use flow_workflow::Workflow;
use std::alloc::{AllocError, Global};

/// The first event whose name differs from that one at one place.
fn near_event<'a>(events: &'a [Name], name: &[u8]) -> Option<&'a Name>
    ensures { option_copied result ≡ find (is_near name.now) events.now }
{
    for event in events {
        if is_near(name, event.bytes()) {
            return Some(event);
        }
    }
    None
}

/// The same name in memory of its own, if there is one.
fn copied(alloc: Global, name: Option<&Name>) -> Result<Option<Name>, AllocError>
    ensures { IfOk result (λ copy. copy ≡ option_copied name.entry) }
{
    match name {
        Some(name) => Ok(Some(name.copy(alloc)?)),
        None => Ok(None),
    }
}

/// That the name is that of no event.
fn no_event(alloc: Global, events: &[Name], name: &[u8], second: bool) -> QuestionStop
    requires { ¬ (name.now ∈ events.now) }
    ensures { IsNoEvent events.now name.now second result }
{
    match copied(alloc, near_event(events, name)) {
        Ok(near) => QuestionStop::NoEvent { second, near },
        Err(AllocError) => QuestionStop::NoMemory,
    }
}

/// The number of the event of that name.
fn event_of(
    alloc: Global,
    workflow: &Workflow,
    name: &[u8],
    second: bool,
) -> Result<u32, QuestionStop>
    ensures known { IfOk result (λ event. name.now ∈ workflow.now.events) }
    ensures number { IfOk result (λ event. event ≡ event_number workflow.now.events name.now) }
    ensures refused { IfErr result (IsNoEvent workflow.now.events name.now second) }
{
    let called = Name::new(alloc, name)?;
    match workflow.event_number(&called) {
        Some(event) => Ok(event),
        None => Err(no_event(alloc, workflow.events(), name, second)),
    }
}

/// The numbers of two different events of these names.
pub(crate) fn pair_of(
    alloc: Global,
    workflow: &Workflow,
    one: &[u8],
    two: &[u8],
) -> Result<(u32, u32), QuestionStop>
    ensures first { IfOk result (λ pair. (one.now ∈ workflow.now.events) × (pair.0 ≡ event_number workflow.now.events one.now)) }
    ensures second { IfOk result (λ pair. (two.now ∈ workflow.now.events) × (pair.1 ≡ event_number workflow.now.events two.now)) }
    ensures different { IfOk result (λ pair. two.now ≢ one.now) }
    ensures refused { IfErr result (IsNoPair workflow.now.events one.now two.now) }
{
    let first = event_of(alloc, workflow, one, false)?;
    let second = event_of(alloc, workflow, two, true)?;
    if two == one {
        return Err(QuestionStop::OneEvent);
    }
    Ok((first, second))
}
