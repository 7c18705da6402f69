//! The line of the trail that tells an entry.
ghost use Rattle.std.specs.Prelude.{◌≡◌, ◌++◌, IfOk, OnOk};
ghost use Rattle.std.specs.String.{string_bytes};
ghost use Rattle.flow_record.specs.History.{step_text};
ghost use Rattle.flow_trail.specs.Lines.{said_of};
ghost use Rattle.flow_case_cli.specs.Line.{IsLineOf, IsTaskOf, IsLeafOf, IsLeafOfClaim};

use crate::asker::Asker;
use flow_ask::Ask;
use flow_core::Core;
use flow_model::{FailEffect, Step};
use flow_record::print_label;
use flow_trail::{Telling, TrailLine};
use flow_workflow::Workflow;
use std::alloc::{AllocError, Global};

/// The line that tells the step, of that leaf.
pub(crate) fn line_of(
    alloc: Global,
    workflow: &Workflow,
    leaf: Option<u32>,
    step: Step,
    asker: Asker<'_>,
) -> Result<TrailLine, AllocError>
    ensures { IfOk result (λ line. IsLineOf workflow.now leaf step asker.entry (said_of line)) }
{
    Ok(TrailLine::Told(Telling {
        at: String::from_str(alloc, asker.at)?,
        by: String::from_str(alloc, asker.name)?,
        entry: step_words(alloc, step)?,
        task: task_name(alloc, workflow, leaf)?,
        note: String::from_str(alloc, asker.note)?,
    }))
}

/// The step in words, as a history has it.
pub fn step_words(alloc: Global, step: Step) -> Result<String, AllocError>
    ensures { IfOk result (λ text. string_bytes text ≡ step_text step) }
{
    let mut text = String::new(alloc);
    push_step(&mut text, step)?;
    Ok(text)
}

fn push_step(text: &mut String, step: Step) -> Result<(), AllocError>
    ensures { OnOk result (string_bytes text.new ≡ string_bytes text.old ++ step_text step) }
{
    match step {
        Step::Took { claim, leaf } => write!(text, "took {claim} {leaf}"),
        Step::Done { claim } => write!(text, "done {claim}"),
        Step::Failed {
            claim,
            effect: FailEffect::Switched,
        } => write!(text, "failed {claim} switched"),
        Step::Failed {
            claim,
            effect: FailEffect::Kept,
        } => write!(text, "failed {claim} kept"),
        Step::Late { claim } => write!(text, "late {claim}"),
        Step::Did { leaf } => write!(text, "did {leaf}"),
        Step::Rewound { index } => write!(text, "rewound {index}"),
        Step::Committed => text.push_str("committed"),
    }
}

/// The name of the leaf's task, which is its label; none without a leaf.
pub fn task_name(
    alloc: Global,
    workflow: &Workflow,
    leaf: Option<u32>,
) -> Result<String, AllocError>
    ensures { IfOk result (λ text. IsTaskOf workflow.now leaf (string_bytes text)) }
{
    let Some(leaf) = leaf else {
        return Ok(String::new(alloc));
    };
    let label = print_label(alloc, workflow, leaf)?;
    String::from_utf8_lossy(alloc, &label)
}

/// The leaf that an ask is about, if it is about one.
pub(crate) fn leaf_of(core: &Core, ask: Ask) -> Option<u32>
    ensures { IsLeafOf core.now ask result }
{
    match ask {
        Ask::Take(leaf) | Ask::Do(leaf) => Some(leaf),
        Ask::Done(claim) | Ask::Fail(claim) => leaf_of_claim(core, claim),
        Ask::Rewind | Ask::Commit => None,
    }
}

/// The leaf of a claim that is not answered.
fn leaf_of_claim(core: &Core, claim: u32) -> Option<u32>
    ensures { IsLeafOfClaim core.now claim result }
{
    match core.call_of(claim) {
        Some(call) => Some(call.leaf),
        None => None,
    }
}
