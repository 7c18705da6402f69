//! What a command means in a run.
ghost use Rattle.std.specs.Prelude.{◌≡◌, ◌<◌, length, IfOk, IfErr, IfSome};
ghost use Rattle.std.specs.List.{position};
ghost use Rattle.flow_fault.specs.Near.{is_near};
ghost use Rattle.flow_model.specs.Lists.{◌∈◌};
ghost use Rattle.flow_names.specs.Meaning.{events, event_of, event_near, IsUnknown, TaskMeans, TaskMeansNone, LeafMeant, LeafNotMeant, ClaimMeans, ClaimMeansNone, StepMeans, StepMeansNone, Means, MeansNone};

use crate::claims::claim_out;
use crate::command::{ClaimRef, Command, StepRef, TaskRef};
use crate::leaves::{Sought, has_event};
use crate::refusal::NameRefusal;
use flow_ask::Ask;
use flow_core::Core;
use flow_facts::Name;
use flow_fault::is_near;
use std::alloc::Global;

/// What a command asks of the run. A command that only shows something asks nothing, and so do `tidy`, whose steps are found by
/// asking a scout, and a tick behind `undone`, of which the run knows nothing.
pub fn meaning(alloc: Global, core: &Core, command: &Command) -> Result<Option<Ask>, NameRefusal>
    ensures meant { IfOk result (Means core.now command.now) }
    ensures refused { IfErr result (MeansNone core.now command.now) }
{
    match command {
        Command::Take(task) => Ok(Some(Ask::Take(leaf_of_task(alloc, core, task)?))),
        Command::Done(claim) => Ok(Some(Ask::Done(claim_meant(core, claim)?))),
        Command::Fail(claim) => Ok(Some(Ask::Fail(claim_meant(core, claim)?))),
        Command::Do(step) => Ok(Some(Ask::Do(leaf_of_step(alloc, core, step)?))),
        Command::Rewind => Ok(Some(Ask::Rewind)),
        Command::Commit => Ok(Some(Ask::Commit)),
        _ => Ok(None),
    }
}

/// The leaf that a task means.
pub fn leaf_of_task(alloc: Global, core: &Core, task: &TaskRef) -> Result<u32, NameRefusal>
    ensures meant { IfOk result (TaskMeans core.now task.now) }
    ensures refused { IfErr result (TaskMeansNone core.now task.now) }
{
    let event = event_called(core, &task.name)?;
    leaf_of_event(alloc, core, event, task.leaf)
}

/// The leaf of the event that is meant, or said.
fn leaf_of_event(
    alloc: Global,
    core: &Core,
    event: u32,
    said: Option<u32>,
) -> Result<u32, NameRefusal>
    ensures meant { IfOk result (LeafMeant core.now event said) }
    ensures refused { IfErr result (LeafNotMeant core.now event said) }
{
    match said {
        None => Sought::Event(event).meant(alloc, core),
        Some(leaf) => {
            if has_event(core, leaf, event) {
                Ok(leaf)
            } else {
                Err(NameRefusal::OtherLeaf { leaf })
            }
        }
    }
}

/// The claim that is meant.
pub fn claim_meant(core: &Core, claim: &ClaimRef) -> Result<u32, NameRefusal>
    ensures meant { IfOk result (ClaimMeans core.now claim.now) }
    ensures refused { IfErr result (ClaimMeansNone core.now claim.now) }
{
    match claim {
        ClaimRef::Number(number) => Ok(*number),
        ClaimRef::Of(task) => {
            let event = event_called(core, &task.name)?;
            match claim_out(core, event, task.leaf) {
                Some(claim) => Ok(claim),
                None => Err(NameRefusal::NotOut { event }),
            }
        }
    }
}

/// The leaf that is to be done.
pub fn leaf_of_step(alloc: Global, core: &Core, step: &StepRef) -> Result<u32, NameRefusal>
    ensures meant { IfOk result (StepMeans core.now step.now) }
    ensures refused { IfErr result (StepMeansNone core.now step.now) }
{
    match step {
        StepRef::Leaf(leaf) => Ok(*leaf),
        StepRef::Label(label) => Sought::Label(label.copy(alloc)?).meant(alloc, core),
    }
}

/// The number of the event of that name.
fn event_called(core: &Core, name: &Name) -> Result<u32, NameRefusal>
    ensures found { IfOk result (λ event. (name.now ∈ events core.now) × (event ≡ event_of core.now name.now)) }
    ensures refused { IfErr result (IsUnknown core.now name.now) }
{
    match core.workflow().event_number(name) {
        Some(event) => Ok(event),
        None => Err(NameRefusal::Unknown {
            near: event_near(core, name),
        }),
    }
}

/// The number of the first event whose name differs from that one at one place.
fn event_near(core: &Core, name: &Name) -> Option<u32>
    ensures { result ≡ event_near core.now name.now }
{
    let names = core.workflow().events();
    match place_near(names, name.bytes()) {
        Some(place) => Some(place as u32),
        None => None,
    }
}

/// The place of the first of the names that differs from that one at one place.
fn place_near(names: &[Name], name: &[u8]) -> Option<usize>
    ensures place { result ≡ position (is_near name.now) names.now }
    ensures within { IfSome result (λ place. place < length names.now) }
{
    names.iter().position(|other| is_near(name, other.bytes()))
}
