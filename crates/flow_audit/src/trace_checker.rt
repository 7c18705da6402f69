use crate::checker::Checker;
use crate::finding::Finding;
use flow_plan::Compiled;
use flow_record::{RecordRefusal, read_journal};
use flow_trace::check_trace;
use flow_workflow::Workflow;
use std::alloc::{AllocError, Global};
use std::marker::Model;

/// Checks journals against a workflow and its plans. A clause sees it as the workflow.
#[derive(Drop)]
pub struct TraceChecker<'a> {
    workflow: &'a Workflow,
    compiled: &'a Compiled,
}

impl<'a> Model for TraceChecker<'a> {
    ghost use Rattle.flow_workflow.specs.Definition.{Definition, definition_code, schema_of};
    ghost use Rattle.flow_plan.specs.Compilation.{IsCompiled};

    ghost Value = { Definition };

    ghost coded = { definition_code };

    ghost view = { λ c. c.workflow.now };

    ghost invariant = { λ c. IsCompiled (schema_of c.workflow.now) c.compiled.now };
}

impl<'a> TraceChecker<'a> {
    ghost use Rattle.std.specs.Prelude.{◌≡◌};
    ghost use Rattle.flow_workflow.specs.Definition.{schema_of};
    ghost use Rattle.flow_plan.specs.Compilation.{IsCompiled};

    /// A checker for the workflow, and for what it is compiled to.
    pub fn new(workflow: &'a Workflow, compiled: &'a Compiled) -> TraceChecker<'a>
        requires { IsCompiled (schema_of workflow.now) compiled.now }
        ensures { result ≡ workflow.now }
    {
        TraceChecker { workflow, compiled }
    }
}

impl<'a> Checker for TraceChecker<'a> {
    ghost use Rattle.flow_audit.specs.Findings.{IsJournalFinding};

    ghost finds = { λ checker text finding. IsJournalFinding checker text finding };

    fn check(&self, alloc: Global, text: &[u8]) -> Result<Finding, AllocError> {
        match read_journal(alloc, self.workflow, text) {
            Ok(leaves) => {
                let checked = check_trace(alloc, self.workflow, self.compiled, &leaves)?;
                Ok(Finding::Checked(checked))
            }
            Err(RecordRefusal::BadLine { line }) => Ok(Finding::BadLine(line)),
            Err(RecordRefusal::Label { line }) => Ok(Finding::Label(line)),
            Err(RecordRefusal::NoMemory) => Err(AllocError),
        }
    }
}
