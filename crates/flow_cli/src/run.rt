ghost use Rattle.std.specs.Prelude.{◌≡◌, IfOk};
ghost use Rattle.flow_form.specs.Script.{said};
ghost use Rattle.flow_form.specs.Names.{IsClosed};
ghost use Rattle.flow_workflow.specs.Definition.{schema_of};
ghost use Rattle.flow_plan.specs.Compilation.{IsCompiled};
ghost use Rattle.flow_cli.specs.Finding.{IsFound, Answers};
ghost use Rattle.flow_words.specs.Words.{IsWithin};
ghost use Rattle.flow_cli.specs.Run.{HasRun, RunsWorkflow, RunsSaid};

use flow_core::Core;
use flow_crew::{Book, run_crew};
use flow_form::Script;
use flow_front::{Output, Prepared, Stop, prepare};
use flow_gate::Gate;
use flow_reply::{Verdict, print_report, status_of};
use flow_words::Request;
use std::alloc::{AllocError, Global};
use std::sync::Wait;
use std::thread::Threads;

/// The workers of a request, each in a thread of the runtime, and the gate that performs their tasks.
#[derive(Drop)]
pub(crate) struct Crew<'a, R, G: Gate> {
    pub(crate) rt: &'a R,
    pub(crate) gate: &'a G,
    pub(crate) request: Request,
    ghost within: { IsWithin request },
}

impl<'a, R: Threads + Wait + Sync, G: Gate> Crew<'a, R, G> {
    /// Runs a compiled workflow to its end.
    pub(crate) fn run(
        &self,
        alloc: Global,
        prepared: Prepared,
    ) -> Result<(Core, Verdict), AllocError>
        requires { IsCompiled (schema_of prepared.workflow) prepared.compiled }
        ensures { IfOk result (λ ran. HasRun G.gives prepared.workflow self.now.request.steps self.now.request.workers ran.0 ran.1) }
    {
        let Prepared { workflow, compiled } = prepared;
        let core = Core::start(alloc, workflow, compiled, self.request.steps)?;
        let (book, end) = run_crew(
            self.rt,
            alloc,
            Book::new(core, self.gate),
            self.request.workers,
        );
        let core = book.into_core();
        // what the core keeps of the history
        let _ = core.history();
        Ok((core, Verdict::Ended(end)))
    }

    /// Runs a compiled workflow, and reports the run once it is over.
    fn report(&self, alloc: Global, prepared: Prepared) -> Result<Output, AllocError>
        requires { IsCompiled (schema_of prepared.workflow) prepared.compiled }
        ensures { IfOk result (IsFound (RunsWorkflow G.gives prepared.workflow self.now.request.steps self.now.request.workers)) }
    {
        let (core, verdict) = self.run(alloc, prepared)?;
        let report = print_report(alloc, &core, &verdict);
        drop(core);
        Ok(Output {
            status: status_of(&verdict),
            text: report?,
        })
    }

    /// Runs what a script says.
    pub(crate) fn run_script(&self, alloc: Global, script: &Script) -> Result<Output, Stop>
        requires { IsClosed (said script.now) }
        ensures { Answers (RunsSaid G.gives (said script.now) self.now.request.steps self.now.request.workers) result }
    {
        let prepared = prepare(alloc, script)?;
        Ok(self.report(alloc, prepared)?)
    }
}
