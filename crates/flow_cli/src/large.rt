//! The mode `large`: workers make a run of a generated workflow.
ghost use Rattle.std.specs.Prelude.{◌≡◌, IfOk};
ghost use Rattle.flow_cli.specs.Finding.{IsFound};
ghost use Rattle.flow_cli.specs.Large.{summary_of, RunsGenerated};

use crate::generated::{compile_generated, generated_workflow};
use crate::run::Crew;
use flow_core::Core;
use flow_front::{Output, Prepared};
use flow_gate::Gate;
use flow_plan::Counts;
use flow_reply::{Summary, Verdict, print_summary, status_of};
use flow_words::Request;
use std::alloc::{AllocError, Global};
use std::sync::Wait;
use std::thread::Threads;

/// The numbers of a run and of its workflow, which is compiled with these counts.
fn summary_of(core: &Core, counts: &Counts, request: Request, verdict: Verdict) -> Summary
    ensures { result ≡ summary_of counts.now request.seed request.size core.now verdict }
{
    Summary {
        bulk: counts.bulk,
        history: core.history().len() as u64,
        journal: core.journal().len() as u64,
        leaves: u64::from(core.workflow().tree().leaves()),
        live: counts.live,
        options: counts.options,
        resolutions: counts.resolutions,
        seed: u64::from(request.seed),
        size: u64::from(request.size),
        verdict,
    }
}

impl<'a, R: Threads + Wait + Sync, G: Gate> Crew<'a, R, G> {
    /// Runs the generated workflow of the request, and tells the run in one line once it is over.
    pub(crate) fn run_generated(&self, alloc: Global) -> Result<Output, AllocError>
        ensures { IfOk result (IsFound (RunsGenerated G.gives self.now.request.seed self.now.request.size self.now.request.steps self.now.request.workers)) }
    {
        let workflow = generated_workflow(alloc, self.request)?;
        let compiled = match compile_generated(alloc, &workflow, self.request) {
            Ok(compiled) => compiled,
            Err(refusal) => {
                drop(workflow);
                return Err(refusal);
            }
        };
        let counts = compiled.counts();
        let (core, verdict) = self.run(alloc, Prepared { workflow, compiled })?;
        let summary = summary_of(&core, &counts, self.request, verdict);
        let text = print_summary(alloc, &core, &summary);
        drop(core);
        Ok(Output {
            status: status_of(&verdict),
            text: text?,
        })
    }
}
