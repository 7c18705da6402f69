ghost use Rattle.std.specs.Prelude.{◌≡◌, IfOk};
ghost use Rattle.flow_reply.specs.Conclusion.{meaning_of, verdict_text};
ghost use Rattle.flow_reply.specs.Report.{IsReport, IsReportOf, report_text, text_of_report};

use crate::conclusion::{Conclusion, conclusion_of};
use crate::verdict::Verdict;
use flow_core::Core;
use flow_model::Entry;
use flow_record::{print_history, print_journal, print_pieces};
use flow_workflow::Workflow;
use itoa::Buffer;
use std::alloc::{AllocError, Global};

/// What a run did and what it came to.
#[derive(Drop)]
pub struct Report<'a> {
    pub history: &'a [Entry],
    pub journal: &'a [u32],
    pub conclusion: Conclusion,
}

impl Report<'_> {
    /// Prints the report. The leaves of the journal go by their labels in the workflow.
    pub fn print(&self, alloc: Global, workflow: &Workflow) -> Result<Vec<u8>, AllocError>
        ensures { IfOk result (λ text. text.items ≡ text_of_report workflow.now self.now) }
    {
        let words = self.conclusion.print(alloc)?;
        let report = print_lines(
            alloc,
            workflow,
            self.history,
            self.journal,
            words.as_bytes(),
        );
        drop(words);
        report
    }
}

/// Prints a report, its verdict in these words.
fn print_lines(
    alloc: Global,
    workflow: &Workflow,
    history: &[Entry],
    journal: &[u32],
    words: &[u8],
) -> Result<Vec<u8>, AllocError>
    ensures { IfOk result (λ text. text.items ≡ report_text workflow.now history.now journal.now words.now) }
{
    let mut entries = Buffer::new();
    let mut places = Buffer::new();
    let history_lines = print_history(alloc, history)?;
    let journal_lines = print_journal(alloc, workflow, journal)?;
    print_pieces(
        alloc,
        &[
            b"history ",
            entries.format(history.len()).as_bytes(),
            b"\n",
            &history_lines,
            b"journal ",
            places.format(journal.len()).as_bytes(),
            b"\n",
            &journal_lines,
            b"verdict ",
            words,
            b"\n",
        ],
    )
}

/// The report of a run that came to the verdict.
pub fn report_of<'a>(
    alloc: Global,
    core: &'a Core,
    verdict: &Verdict,
) -> Result<Report<'a>, AllocError>
    ensures { IfOk result (λ report. IsReportOf core.now verdict.now report) }
{
    let conclusion = conclusion_of(alloc, core, verdict)?;
    Ok(Report {
        history: core.history(),
        journal: core.journal(),
        conclusion,
    })
}

/// Prints the report of a run that came to the verdict.
pub fn print_report(alloc: Global, core: &Core, verdict: &Verdict) -> Result<Vec<u8>, AllocError>
    ensures { IfOk result (λ text. IsReport core.now verdict.now text.items) }
{
    let report = report_of(alloc, core, verdict)?;
    let text = report.print(alloc, core.workflow());
    drop(report);
    text
}
