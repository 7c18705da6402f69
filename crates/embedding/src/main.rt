//! An order desk: reads the workflow of an order, runs it over a gate of its own (`desk.rt`), and reports the run. To be copied.
#![tactic(auto)]

ghost use Rattle.std.specs.Prelude.{◌≡◌, ◌<◌, ◌-◌, ◌^◌, IfOk};
ghost use Rattle.embedding.specs.Answer.{IsReported, IsAnswer};
ghost use Rattle.flow_plan.specs.Compilation.{IsCompiled};
ghost use Rattle.flow_workflow.specs.Definition.{schema_of};

mod desk;

use desk::{Desk, DeskGate};
use flow_core::Core;
use flow_crew::{Book, run_crew};
use flow_front::{Output, Prepared, Status, prepare, read_input, refuse};
use flow_io::{Source, StdSink, StdSource, write_all};
use flow_reply::{Verdict, print_report, status_of};
use std::alloc::{AllocError, Global};
use std::process::ExitCode;
use std::sync::Wait;
use std::thread::Threads;

/// What the run goes by, which a program of your own would read from its records: 480 for five pieces are too much for customer 17.
const DESK: Desk = Desk {
    customer: 17,
    amount: 480,
    article: 4,
    pieces: 5,
    limits: &[(9, 2000), (17, 300)],
    stock: &[(3, 1), (4, 12)],
};

/// The greatest length of the run's history.
const STEPS: u32 = 1000;

/// The history names the worker of each entry, and which comes first is not ours to say: with one the report is always the same. Take as
/// many as there are tasks that may be at work at once.
const WORKERS: u32 = 1;

/// Runs a workflow at the desk, and reports the run once it is over.
fn run<R: Threads + Wait + Sync>(
    rt: &R,
    alloc: Global,
    prepared: Prepared,
) -> Result<Output, AllocError>
    requires { IsCompiled (schema_of prepared.workflow) prepared.compiled }
    ensures { IfOk result (λ output. IsReported prepared.workflow STEPS output.status output.text.items) }
{
    let Prepared { workflow, compiled } = prepared;
    let gate = DeskGate::new(alloc, DESK, &workflow)?;
    let core = Core::start(alloc, workflow, compiled, STEPS)?;
    let (book, end) = run_crew(rt, alloc, Book::new(core, &gate), WORKERS);
    let core = book.into_core();
    // what a core keeps of its history
    let _ = core.history();
    let verdict = Verdict::Ended(end);
    let text = print_report(alloc, &core, &verdict);
    drop(core);
    Ok(Output {
        status: status_of(&verdict),
        text: text?,
    })
}

/// Runs what a source says.
fn answer<R: Threads + Wait + Sync, S: Source>(
    rt: &R,
    alloc: Global,
    source: &mut S,
) -> Result<Output, AllocError>
    requires { S.faults source.old < 2 ^ 64 - 1 }
    ensures { IfOk result (λ output. IsAnswer (S.left source.old) STEPS output.status output.text.items) }
{
    let input = match read_input(alloc, source) {
        Ok(input) => input,
        Err(stop) => return refuse(alloc, stop, None),
    };
    let output = match prepare(alloc, &input.script) {
        Ok(prepared) => run(rt, alloc, prepared),
        Err(stop) => refuse(alloc, stop, Some(&input.script)),
    };
    drop(input);
    output
}

fn main(rt: HostRuntime) -> ExitCode {
    let mut sink = StdSink::new(rt.stdout());
    let status = match answer(&rt, rt.alloc(), &mut StdSource::new(rt.stdin())) {
        Ok(output) => match write_all(&mut sink, &output.text) {
            Ok(()) => output.status,
            Err(_) => Status::WriteFault,
        },
        Err(AllocError) => Status::Memory,
    };
    ExitCode::from(status.code())
}
