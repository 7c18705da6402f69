//! The step itself.
ghost use Rattle.std.specs.Prelude.{◌≡◌, ◌≤◌, ℕ, List, length, None, Some, IfOk};
ghost use Rattle.flow_model.specs.declared.limits.TheConstants.{GREATEST_INPUT};
ghost use Rattle.flow_form.specs.Script.{Said, said};
ghost use Rattle.flow_form.specs.Names.{IsClosed, event_names};
ghost use Rattle.flow_workflow.specs.Definition.{schema_of};
ghost use Rattle.flow_plan.specs.Compilation.{IsCompiled};
ghost use Rattle.flow_policy.specs.Policy.{IsPolicyOf};
ghost use Rattle.flow_findings.specs.Refusing as refusing;
ghost use Rattle.flow_findings.specs.Refusing.{named_by};
ghost use Rattle.flow_front.specs.Stop.{IsStop};
ghost use Rattle.flow_step.specs.Step.{GoesOn, StepsAt, ByCommand, StepsSaid, IsUnread, Steps, Gets};

use crate::follow::{Remade, follow};
use crate::give::give;
use crate::record::room_for;
use crate::stepped::Stepped;
use crate::texts::{read_command, read_script};
use flow_core::Core;
use flow_form::Script;
use flow_front::{Prepared, Stop, prepare, refuse};
use flow_policy::{Policy, policy_of};
use flow_record::Command;
use flow_roles::Desk;
use std::alloc::{AllocError, Global};

/// Follows the history, and then gives the caller's command.
fn go_on<R: Remade + Drop>(
    alloc: Global,
    first: R,
    history: &[u8],
    by: u32,
    command: Command,
) -> Result<Stepped, AllocError>
    requires { R.can_be_asked first }
    ensures { IfOk result (GoesOn R.run R.answers R.is_same R.may_make R.grown first history.now by command) }
{
    let mut run = first;
    match follow(&mut run, history) {
        Ok(()) => give(alloc, &mut run, command, by),
        Err(number) => Ok(Stepped::Illegal(number)),
    }
}

/// A step of a compiled workflow without a policy.
fn step_run(
    alloc: Global,
    prepared: Prepared,
    history: &[u8],
    by: u32,
    command: Command,
) -> Result<Stepped, AllocError>
    requires { IsCompiled (schema_of prepared.workflow) prepared.compiled }
    ensures { IfOk result (StepsAt prepared.workflow None history.now by command) }
{
    let Prepared { workflow, compiled } = prepared;
    let core = Core::start(alloc, workflow, compiled, room_for(history))?;
    go_on(alloc, core, history, by, command)
}

/// A step of a compiled workflow under a policy.
fn step_desk(
    alloc: Global,
    prepared: Prepared,
    policy: Policy,
    history: &[u8],
    by: u32,
    command: Command,
) -> Result<Stepped, AllocError>
    requires compiled { IsCompiled (schema_of prepared.workflow) prepared.compiled }
    requires same_events { (text : List ℕ) × (s : Said) × IsPolicyOf text s policy × (event_names s.decls ≡ prepared.workflow.events) }
    ensures { IfOk result (StepsAt prepared.workflow (Some policy) history.now by command) }
{
    let Prepared { workflow, compiled } = prepared;
    let core = match Core::start(alloc, workflow, compiled, room_for(history)) {
        Ok(core) => core,
        Err(error) => {
            drop(policy);
            return Err(error);
        }
    };
    let desk = Desk::new(core, policy);
    go_on(alloc, desk, history, by, command)
}

/// A step of what a script says, without a policy.
fn step_free(
    alloc: Global,
    script: &Script,
    history: &[u8],
    by: u32,
    line: &[u8],
) -> Result<Stepped, Stop>
    requires { IsClosed (said script.now) }
    ensures { Gets (ByCommand (said script.now) None history.now by line.now) result }
{
    let command = read_command(alloc, line)?;
    match prepare(alloc, script) {
        Ok(prepared) => Ok(step_run(alloc, prepared, history, by, command)?),
        Err(stop) => Err(stop),
    }
}

/// A step of what a script says, under a policy.
fn step_under(
    alloc: Global,
    script: &Script,
    policy: Policy,
    history: &[u8],
    by: u32,
    line: &[u8],
) -> Result<Stepped, Stop>
    requires closed { IsClosed (said script.now) }
    requires policy { (text : List ℕ) × IsPolicyOf text (said script.now) policy }
    ensures { Gets (ByCommand (said script.now) (Some policy) history.now by line.now) result }
{
    let command = match read_command(alloc, line) {
        Ok(command) => command,
        Err(stop) => {
            drop(policy);
            return Err(stop);
        }
    };
    match prepare(alloc, script) {
        Ok(prepared) => Ok(step_desk(alloc, prepared, policy, history, by, command)?),
        Err(stop) => {
            drop(policy);
            Err(stop)
        }
    }
}

/// A step of what a script says, by the text of a policy; there is none where that is empty.
fn step_script(
    alloc: Global,
    script: &Script,
    policy: &[u8],
    history: &[u8],
    by: u32,
    line: &[u8],
) -> Result<Stepped, Stop>
    requires closed { IsClosed (said script.now) }
    requires short { length policy.now ≤ GREATEST_INPUT }
    ensures { Gets (StepsSaid (said script.now) policy.now history.now by line.now) result }
{
    if policy.is_empty() {
        return step_free(alloc, script, history, by, line);
    }
    let policy = policy_of(alloc, policy, script)?;
    step_under(alloc, script, policy, history, by, line)
}

/// That a text says nothing, in words.
fn unread(alloc: Global, stop: Stop, script: Option<&Script>) -> Result<Stepped, AllocError>
    requires { IsStop (refusing.IsTold (named_by script)) stop }
    ensures { IfOk result (IsUnread (named_by script.entry) stop) }
{
    let output = refuse(alloc, stop, script)?;
    Ok(Stepped::Unread(output.text))
}

/// One step of a case: the texts of its workflow and of its policy (an empty one is none), the records of its history so far, and the
/// caller's line, which is one command of a session.
pub fn step(
    alloc: Global,
    text: &[u8],
    policy: &[u8],
    history: &[u8],
    by: u32,
    line: &[u8],
) -> Result<Stepped, AllocError>
    ensures { IfOk result (Steps text.now policy.now history.now by line.now) }
{
    let script = match read_script(alloc, text, policy) {
        Ok(script) => script,
        Err(stop) => return unread(alloc, stop, None),
    };
    match step_script(alloc, &script, policy, history, by, line) {
        Ok(stepped) => Ok(stepped),
        Err(stop) => unread(alloc, stop, Some(&script)),
    }
}
