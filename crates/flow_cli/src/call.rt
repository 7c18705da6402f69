ghost use Rattle.std.specs.Prelude.{◌≡◌, ◌<◌, ◌-◌, ◌≤◌, ◌^◌, ◌↔◌, ◌⊎◌, ℕ, Bool, List, [], length, map, Some, IfOk, IfErr, IfSome};
ghost use Rattle.std.specs.String.{string_bytes};
ghost use Rattle.std.specs.Io.KnownBytes.{Appends};
ghost use Rattle.flow_io.specs.Sink.{AppendsPart};
ghost use Rattle.flow_model.specs.declared.limits.TheConstants.{GREATEST_INPUT};
ghost use Rattle.flow_model.specs.declared.history.Call.{Call};
ghost use Rattle.flow_model.specs.declared.history.Outcome.{Outcome};
ghost use Rattle.flow_form.specs.Script.{said};
ghost use Rattle.flow_form.specs.Names.{IsClosed};
ghost use Rattle.flow_words.specs.declared.request.Mode.{Mode};
ghost use Rattle.flow_words.specs.declared.purpose.Purpose.{Purpose};
ghost use Rattle.flow_words.specs.Words.{HasWithin, IsFor, IsWithin};
ghost use Rattle.flow_front.specs.declared.status.Status.{Status};
ghost use Rattle.flow_cli.specs.Finding.{Answers};
ghost use Rattle.flow_findings.specs.Refusing.{IsTold};
ghost use Rattle.flow_form.specs.Names.{event_names};
ghost use Rattle.flow_front.specs.Stop.{IsStop};
ghost use Rattle.flow_cli.specs.Output.{Reads, ReadsFor, StartsNoThreads, FindsIn, TellsFound, IsText, IsGenerated, IsAnswer, IsServed, WritesFor, Writes, IsWhole, IsOver, IsTakenFrom, IsOutcome, EndsWith};

use crate::check::check;
use crate::drive::drive_text;
use crate::duty::duty_text;
use crate::run::Crew;
use crate::trace::trace_text;
use crate::verify::verify_text;
use flow_form::Script;
use flow_front::{Input, Output, Refused, Status, Stop, read_input, refuse, tell};
use flow_gate::Gate;
use flow_gen::generate;
use flow_io::{Sink, Source, write_all};
use flow_words::{HELP, Mode, Purpose, Request, VERSION, law_one_purpose, purpose_of};
use std::alloc::{AllocError, Global};
use std::sync::Wait;
use std::thread::Threads;

/// What the mode of a request, which reads and starts no threads, finds in an input.
fn find(alloc: Global, request: Request, input: &Input) -> Result<Output, Stop>
    requires within { IsWithin request }
    requires reads { Reads request.mode }
    requires alone { StartsNoThreads request.mode }
    requires closed { IsClosed (said input.now.script) }
    requires short { length input.now.second.items ≤ GREATEST_INPUT }
    ensures { (gives : Call → Outcome → Bool) → Answers (FindsIn gives request input.now) result }
{
    let script = &input.script;
    match request.mode {
        Mode::Drive => drive_text(alloc, script, &input.second, request.steps),
        Mode::Check => check(alloc, script),
        Mode::Verify => verify_text(alloc, script, &input.second),
        Mode::Trace => trace_text(alloc, script, &input.second),
        Mode::Duty => duty_text(alloc, script, &input.second, request.steps),
        Mode::Run | Mode::Gen | Mode::Large | Mode::Audit => unreachable!(),
    }
}

impl<'a, R: Threads + Wait + Sync, G: Gate> Crew<'a, R, G> {
    /// What the mode of the request, which reads and starts threads, finds in an input.
    fn find(&self, alloc: Global, input: &Input) -> Result<Output, Stop>
        requires reads { Reads self.now.request.mode }
        requires threads { ¬ (StartsNoThreads self.now.request.mode) }
        requires closed { IsClosed (said input.now.script) }
        ensures { Answers (FindsIn G.gives self.now.request input.now) result }
    {
        match self.request.mode {
            Mode::Run => self.run_script(alloc, &input.script),
            // no other mode reads and starts threads
            _ => self.audit_text(alloc, &input.script, &input.second),
        }
    }

    /// What is written of what the source gives.
    fn answer_source<S: Source>(&self, alloc: Global, source: &mut S) -> Result<Output, AllocError>
        requires reads { Reads self.now.request.mode }
        requires threads { ¬ (StartsNoThreads self.now.request.mode) }
        requires source_counts { S.faults source.old < 2 ^ 64 - 1 }
        ensures { IfOk result (IsAnswer S.left S.faults G.gives self.now.request source.old source.new) }
    {
        match read_input(alloc, source) {
            Ok(input) => {
                let found = self.find(alloc, &input);
                let output = tell_found(alloc, found, &input.script);
                drop(input);
                output
            }
            Err(stop) => refuse(alloc, stop, None),
        }
    }
}

/// What is written of what was found in an input, or of why nothing was.
fn tell_found(
    alloc: Global,
    found: Result<Output, Stop>,
    script: &Script,
) -> Result<Output, AllocError>
    requires { IfErr found (IsStop (IsTold (event_names (said script.now).decls))) }
    ensures { IfOk result (TellsFound (event_names (said script.now).decls) found) }
{
    match found {
        Ok(output) => Ok(output),
        Err(stop) => refuse(alloc, stop, Some(script)),
    }
}

/// What is written of what the source gives, where no threads are started.
fn answer_source<S: Source>(
    alloc: Global,
    request: Request,
    source: &mut S,
) -> Result<Output, AllocError>
    requires within { IsWithin request }
    requires reads { Reads request.mode }
    requires alone { StartsNoThreads request.mode }
    requires source_counts { S.faults source.old < 2 ^ 64 - 1 }
    ensures { (gives : Call → Outcome → Bool) → IfOk result (IsAnswer S.left S.faults gives request source.old source.new) }
{
    match read_input(alloc, source) {
        Ok(input) => {
            let found = find(alloc, request, &input);
            let output = tell_found(alloc, found, &input.script);
            drop(input);
            output
        }
        Err(stop) => refuse(alloc, stop, None),
    }
}

/// The generated workflow of that seed and size, as output.
fn write_generated(alloc: Global, request: Request) -> Result<Output, AllocError>
    requires { IsWithin request }
    ensures { IfOk result (λ output. IsGenerated request output.status output.text.items) }
{
    Ok(Output {
        status: Status::Fine,
        text: generate(alloc, request.seed, request.size)?,
    })
}

/// What is written for a request whose mode starts no threads, the same whatever the gate. It is handed no runtime, so it
/// can neither wait nor start threads: it returns.
pub fn answer_alone<S: Source>(
    alloc: Global,
    request: Request,
    source: &mut S,
) -> Result<Output, AllocError>
    requires within { IsWithin request }
    requires alone { StartsNoThreads request.mode }
    requires source_counts { S.faults source.old < 2 ^ 64 - 1 }
    ensures outcome { (gives : Call → Outcome → Bool) → IfOk result (IsAnswer S.left S.faults gives request source.old source.new) }
    ensures unread { ¬ (Reads request.mode) → source.new ≡ source.old }
{
    match request.mode {
        Mode::Gen => write_generated(alloc, request),
        _ => answer_source(alloc, request, source),
    }
}

/// What is written for a request. Only where threads are started the runtime is handed on.
fn answer<R: Threads + Wait + Sync, S: Source, G: Gate>(
    rt: &R,
    alloc: Global,
    request: Request,
    source: &mut S,
    gate: &G,
) -> Result<Output, AllocError>
    requires within { IsWithin request }
    requires source_counts { S.faults source.old < 2 ^ 64 - 1 }
    ensures outcome { IfOk result (IsAnswer S.left S.faults G.gives request source.old source.new) }
    ensures unread { ¬ (Reads request.mode) → source.new ≡ source.old }
{
    match request.mode {
        Mode::Run | Mode::Audit => Crew { rt, gate, request }.answer_source(alloc, source),
        Mode::Large => Crew { rt, gate, request }.run_generated(alloc),
        _ => answer_alone(alloc, request, source),
    }
}

/// A text about the program, as output.
fn write_text(alloc: Global, text: &[u8]) -> Result<Output, AllocError>
    ensures { IfOk result (λ output. IsText text.now output.status output.text.items) }
{
    Ok(Output {
        status: Status::Fine,
        text: Vec::from_slice(alloc, text)?,
    })
}

/// What is written for the purpose of a call.
fn serve<R: Threads + Wait + Sync, S: Source, G: Gate>(
    rt: &R,
    alloc: Global,
    purpose: Purpose,
    source: &mut S,
    gate: &G,
) -> Result<Output, AllocError>
    requires within { HasWithin purpose }
    requires source_counts { S.faults source.old < 2 ^ 64 - 1 }
    ensures outcome { IfOk result (IsServed S.left S.faults G.gives purpose source.old source.new) }
    ensures unread { ¬ (ReadsFor purpose) → source.new ≡ source.old }
{
    match purpose {
        Purpose::Answer(request) => answer(rt, alloc, request, source, gate),
        Purpose::Help => write_text(alloc, HELP),
        Purpose::Version => write_text(alloc, VERSION),
    }
}

/// What is written for the words and what the source gives.
fn respond<R: Threads + Wait + Sync, S: Source, G: Gate>(
    rt: &R,
    alloc: Global,
    words: &[String],
    source: &mut S,
    gate: &G,
) -> Result<Output, AllocError>
    requires { S.faults source.old < 2 ^ 64 - 1 }
    ensures writes { IfOk result (λ output. Writes G.gives (map (λ word. string_bytes word) words.now) (S.left source.old) output.status output.text.items) }
    ensures whole { IfOk result (λ output. IsWhole output.status) }
    ensures words { IfOk result (λ output. output.status ≡ Status.Words → source.new ≡ source.old) }
    ensures fault { IfOk result (λ output. (output.status ≡ Status.ReadFault) ↔ (S.faults source.old < S.faults source.new)) }
    ensures end { IfOk result (λ output. (purpose : Purpose) → IsFor (map (λ word. string_bytes word) words.now) purpose → ReadsFor purpose →
        IsOver output.status → IfSome (S.left source.old) (λ _. S.left source.new ≡ Some [])) }
    ensures refused { IfOk result (λ output. (purpose : Purpose) → IsFor (map (λ word. string_bytes word) words.now) purpose → ReadsFor purpose →
        output.status ≡ Status.Input → IsTakenFrom (S.left source.old) (S.left source.new)) }
    ensures unread { (purpose : Purpose) → IsFor (map (λ word. string_bytes word) words.now) purpose → ¬ (ReadsFor purpose) → source.new ≡ source.old }
{
    law_one_purpose();
    match purpose_of(alloc, words)? {
        Some(purpose) => serve(rt, alloc, purpose, source, gate),
        None => tell(alloc, Refused::Words, None),
    }
}

/// The program: reads a workflow from the source, with a session, a query, a journal or several after it as the mode
/// asks, or generates one in `gen` and `large`, and writes to the sink what comes of it. Asked for a text about the
/// program it reads nothing. Want of memory may stand in place of every status but a write fault.
pub fn flow<R: Threads + Wait + Sync, S: Source, K: Sink, G: Gate>(
    rt: &R,
    alloc: Global,
    words: &[String],
    source: &mut S,
    sink: &mut K,
    gate: &G,
) -> Status
    requires source_counts { S.faults source.old < 2 ^ 64 - 1 }
    requires sink_counts { K.faults sink.old < 2 ^ 64 - 1 }

    // The sink gains exactly what the definitions give for the words and what the source tells of its
    // bytes, with this status; after a write fault a part of it, that of a status with which the call
    // could have ended, and with no memory nothing.
    ensures written { IsWhole result → (output : List ℕ) ×
        Writes G.gives (map (λ word. string_bytes word) words.now) (S.left source.old) result output
        × Appends (K.held sink.old) (K.held sink.new) output }
    ensures part { result ≡ Status.WriteFault → (status : Status) × ((output : List ℕ) ×
        Writes G.gives (map (λ word. string_bytes word) words.now) (S.left source.old) status output
        × EndsWith (map (λ word. string_bytes word) words.now) (source.new ≡ source.old) (S.left source.old) (S.left source.new)
        (S.faults source.old) (S.faults source.new) status
        × AppendsPart (K.held sink.old) (K.held sink.new) output) }
    ensures nothing { result ≡ Status.Memory → K.held sink.new ≡ K.held sink.old }

    // When each fault is told; what wrong words leave of the source, which answers stand on a source
    // read to its end, what a refusal leaves of it, and when it is left alone.
    ensures write_fault { (result ≡ Status.WriteFault) ↔ (K.faults sink.old < K.faults sink.new) }
    ensures read_fault { result ≡ Status.ReadFault → S.faults source.old < S.faults source.new }
    ensures read_fault_told { S.faults source.old < S.faults source.new →
        (result ≡ Status.ReadFault) ⊎ ((result ≡ Status.WriteFault) ⊎ (result ≡ Status.Memory)) }
    ensures words { result ≡ Status.Words → source.new ≡ source.old }
    ensures end { (purpose : Purpose) → IsFor (map (λ word. string_bytes word) words.now) purpose → ReadsFor purpose →
        IsOver result → IfSome (S.left source.old) (λ _. S.left source.new ≡ Some []) }
    ensures refused { (purpose : Purpose) → IsFor (map (λ word. string_bytes word) words.now) purpose → ReadsFor purpose →
        result ≡ Status.Input → IsTakenFrom (S.left source.old) (S.left source.new) }
    ensures unread { (purpose : Purpose) → IsFor (map (λ word. string_bytes word) words.now) purpose → ¬ (ReadsFor purpose) →
        source.new ≡ source.old }
{
    let output = match respond(rt, alloc, words, source, gate) {
        Ok(output) => output,
        Err(_) => return Status::Memory,
    };
    match write_all(sink, &output.text) {
        Ok(()) => output.status,
        Err(_) => Status::WriteFault,
    }
}
