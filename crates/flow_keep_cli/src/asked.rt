ghost use Rattle.std.specs.Prelude.{◌≡◌, ◌<◌, ◌-◌, ◌^◌, ◌↔◌, IfOk, IfErr};
ghost use Rattle.flow_form.specs.Script.{said};
ghost use Rattle.flow_form.specs.Names.{IsClosed};
ghost use Rattle.flow_front.specs.Stop.{IsStop};
ghost use Rattle.flow_keep_cli.specs.Asked.{IsAskedIn, IsNotAskedIn, IsLookedIn, IsLooked, IsOfFault, IsTakenBy};

use flow_front::{Input, Output, Prepared, Stop, prepare, read_input, refuse};
use flow_io::Source;
use flow_record::{Command, read_session};
use std::alloc::{AllocError, Global};

/// A workflow whose constraints can be met, with its plans, and the session that it is to be driven by.
#[derive(Drop)]
pub(crate) struct Asked {
    pub(crate) prepared: Prepared,
    pub(crate) commands: Vec<Command>,
}

/// What comes of a source.
#[derive(Drop)]
pub(crate) enum Looked {
    Ready(Asked),
    /// The source is refused, or what it says.
    Refused(Output),
}

/// What an input asks for. The lines of the session are read before the workflow is expanded.
fn asked_in(alloc: Global, input: &Input) -> Result<Asked, Stop>
    requires { IsClosed (said input.now.script) }
    ensures asked { IfOk result (λ asked. IsAskedIn (said input.now.script) input.now.second.items
        asked.prepared.workflow asked.prepared.compiled asked.commands.items) }
    ensures stop { IfErr result (IsStop (IsNotAskedIn (said input.now.script) input.now.second.items)) }
{
    let commands = read_session(alloc, &input.second)?;
    let prepared = prepare(alloc, &input.script)?;
    Ok(Asked { prepared, commands })
}

/// What an input asks for, or why it is refused, in words.
fn look_in(alloc: Global, input: &Input) -> Result<Looked, AllocError>
    requires { IsClosed (said input.now.script) }
    ensures looked { IfOk result (IsLookedIn (said input.now.script) input.now.second.items) }
    ensures no_fault { IfOk result (λ looked. ¬ (IsOfFault looked)) }
{
    match asked_in(alloc, input) {
        Ok(asked) => Ok(Looked::Ready(asked)),
        Err(stop) => Ok(Looked::Refused(refuse(alloc, stop, Some(&input.script))?)),
    }
}

/// What a source asks for, or why it is refused, in words.
#[tactic(auto, using(crate::proofs::Taken::taken_whole, crate::proofs::Taken::taken_stopped))]
pub(crate) fn look<S: Source>(alloc: Global, source: &mut S) -> Result<Looked, AllocError>
    requires { S.faults source.old < 2 ^ 64 - 1 }
    ensures looked { IfOk result (IsLooked (S.left source.old)) }
    ensures fault { IfOk result (λ looked. IsOfFault looked ↔ (S.faults source.old < S.faults source.new)) }
    ensures taken { IfOk result (IsTakenBy (S.left source.old) (S.left source.new)) }
{
    match read_input(alloc, source) {
        Ok(input) => {
            let looked = look_in(alloc, &input);
            drop(input);
            looked
        }
        Err(stop) => Ok(Looked::Refused(refuse(alloc, stop, None)?)),
    }
}
