//! The mode `audit`: workers check many journals against a workflow.
ghost use Rattle.std.specs.Prelude.{◌≡◌, IfOk};
ghost use Rattle.flow_form.specs.Script.{said};
ghost use Rattle.flow_form.specs.Names.{IsClosed};
ghost use Rattle.flow_workflow.specs.Definition.{schema_of};
ghost use Rattle.flow_plan.specs.Compilation.{IsCompiled};
ghost use Rattle.flow_audit.specs.Cuts.{AreCuts};
ghost use Rattle.flow_cli.specs.Finding.{status_of_found, audited, IsOutputOf, IsFound, Answers};
ghost use Rattle.flow_cli.specs.Audit.{FindsOfJournals, AuditsSaid, AuditsText};

use crate::run::Crew;
use flow_audit::{Finding, MOST_JOURNALS, audit_traces, journals};
use flow_findings::print_audit;
use flow_form::Script;
use flow_front::{Output, Prepared, Refused, Status, Stop, prepare};
use flow_gate::Gate;
use flow_trace::Checked;
use std::alloc::{AllocError, Global};
use std::thread::Threads;

/// The status of what is found of journals.
fn status_of_found(found: &[Finding]) -> Status
    ensures { result ≡ status_of_found found.now }
{
    for finding in found {
        if !matches!(finding, Finding::Checked(Checked::Execution)) {
            return Status::No;
        }
    }
    Status::Fine
}

/// What is found of journals, as output.
fn tell_found(alloc: Global, found: &[Finding]) -> Result<Output, AllocError>
    ensures { IfOk result (λ output. IsOutputOf output (audited found.now)) }
{
    Ok(Output {
        status: status_of_found(found),
        text: print_audit(alloc, found)?,
    })
}

impl<'a, R: Threads + Sync, G: Gate> Crew<'a, R, G> {
    /// Checks the journals of a text, which is cut so, against a compiled workflow.
    fn audit(
        &self,
        alloc: Global,
        prepared: &Prepared,
        text: &[u8],
        cuts: &[(usize, usize)],
    ) -> Result<Output, AllocError>
        requires compiled { IsCompiled (schema_of prepared.now.workflow) prepared.now.compiled }
        requires cuts { AreCuts text.now cuts.now }
        ensures { IfOk result (IsFound (FindsOfJournals prepared.now.workflow text.now cuts.now)) }
    {
        let found = audit_traces(
            self.rt,
            alloc,
            &prepared.workflow,
            &prepared.compiled,
            text,
            cuts,
            self.request.workers,
        )?;
        tell_found(alloc, &found)
    }

    /// Checks the journals of a text, which is cut so, against what a script says.
    fn audit_script(
        &self,
        alloc: Global,
        script: &Script,
        text: &[u8],
        cuts: &[(usize, usize)],
    ) -> Result<Output, Stop>
        requires closed { IsClosed (said script.now) }
        requires cuts { AreCuts text.now cuts.now }
        ensures { Answers (AuditsSaid (said script.now) text.now cuts.now) result }
    {
        let prepared = prepare(alloc, script)?;
        let output = self.audit(alloc, &prepared, text, cuts);
        drop(prepared);
        Ok(output?)
    }

    /// Says of each journal of a text whether it is an execution of what a script says. They are counted first.
    pub(crate) fn audit_text(
        &self,
        alloc: Global,
        script: &Script,
        text: &[u8],
    ) -> Result<Output, Stop>
        requires { IsClosed (said script.now) }
        ensures { Answers (AuditsText (said script.now) text.now) result }
    {
        let cuts = journals(alloc, text)?;
        if cuts.len() > MOST_JOURNALS as usize {
            return Err(Stop::Refused(Refused::Journals(cuts.len() as u64)));
        }
        self.audit_script(alloc, script, text, &cuts)
    }
}
