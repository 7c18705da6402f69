ghost use Rattle.std.specs.Prelude.{◌≡◌, ◌++◌, option_map, codes, IfOk};
ghost use Rattle.flow_front.specs.Refusal.{workflow_part};
ghost use Rattle.flow_record.specs.Journal.{journal_text};
ghost use Rattle.flow_workflow.specs.Definition.{schema_of};
ghost use Rattle.flow_plan.specs.Compilation.{IsCompiled};
ghost use Rattle.flow_log_cli.specs.Journals.{journal_of, IsJournal};

use flow_front::Prepared;
use flow_log::{Fit, fit};
use flow_record::{cut, print_journal};
use flow_workflow::Workflow;
use std::alloc::{AllocError, Global};

/// The text of a workflow with a journal behind it.
fn with_journal(
    alloc: Global,
    text: &[u8],
    workflow: &Workflow,
    leaves: &[u32],
) -> Result<Vec<u8>, AllocError>
    ensures { IfOk result (λ whole. whole.items ≡ workflow_part text.now ++ codes "\n%%\n" ++ journal_text workflow.now leaves.now) }
{
    let (end, _) = cut(text);
    let journal = print_journal(alloc, workflow, leaves)?;
    let mut whole = Vec::from_slice(alloc, &text[..end])?;
    whole.extend_from_slice(b"\n%%\n")?;
    whole.extend_from_slice(journal.as_slice())?;
    Ok(whole)
}

/// The journal of a fit.
fn journal_of_fit(
    alloc: Global,
    text: &[u8],
    workflow: &Workflow,
    told: &Fit,
) -> Result<Option<Vec<u8>>, AllocError>
    ensures { IfOk result (λ journal. option_map (λ whole. whole.items) journal ≡ journal_of text.now workflow.now told.now) }
{
    match told {
        Fit::Execution(leaves) => Ok(Some(with_journal(alloc, text, workflow, leaves)?)),
        Fit::Front(leaves) => Ok(Some(with_journal(alloc, text, workflow, leaves)?)),
        Fit::Deviates { .. } => Ok(None),
        Fit::Unknown { .. } => Ok(None),
        Fit::Undecided => Ok(None),
    }
}

/// The text of a workflow with the journal of a sequence behind it, which `flow trace` accepts; nothing where the sequence deviates.
pub fn journal_of(
    alloc: Global,
    text: &[u8],
    prepared: &Prepared,
    events: &[u32],
    budget: u32,
) -> Result<Option<Vec<u8>>, AllocError>
    requires { IsCompiled (schema_of prepared.now.workflow) prepared.now.compiled }
    ensures { IfOk result (λ journal. IsJournal text.now prepared.now.workflow events.now budget (option_map (λ whole. whole.items) journal)) }
{
    let told = fit(
        alloc,
        &prepared.workflow,
        &prepared.compiled,
        events,
        budget,
    )?;
    let journal = journal_of_fit(alloc, text, &prepared.workflow, &told);
    drop(told);
    journal
}
