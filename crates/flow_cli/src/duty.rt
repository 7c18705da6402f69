//! The mode `duty`: a workflow is driven by users, each of whom may take what a policy allows.
ghost use Rattle.std.specs.Prelude.{◌≡◌, ◌≤◌, ℕ, List, length, IfOk};
ghost use Rattle.flow_model.specs.declared.limits.TheConstants.{GREATEST_INPUT};
ghost use Rattle.flow_form.specs.Script.{Said, said};
ghost use Rattle.flow_form.specs.Names.{IsClosed, event_names};
ghost use Rattle.flow_workflow.specs.Definition.{schema_of};
ghost use Rattle.flow_plan.specs.Compilation.{IsCompiled};
ghost use Rattle.flow_policy.specs.Policy.{IsPolicyOf};
ghost use Rattle.flow_cli.specs.Finding.{IsFound, Answers};
ghost use Rattle.flow_cli.specs.Drive.{IsStepCount};
ghost use Rattle.flow_cli.specs.Duty.{DrivesUsers, DutySaid, DutyLines, DutyText};

use flow_core::Core;
use flow_duty::drive;
use flow_form::Script;
use flow_front::{Output, Prepared, Stop, prepare};
use flow_policy::{Duty, Policy, policy_of, read_duties};
use flow_record::cut;
use flow_roles::Desk;
use std::alloc::{AllocError, Global};

/// The number of whoever calls before a user does. It is no user's.
const NOBODY: u32 = 0;

/// Drives a compiled workflow by a session of users.
fn drive_users(
    alloc: Global,
    prepared: Prepared,
    policy: Policy,
    session: &[Duty],
    steps: u32,
) -> Result<Output, AllocError>
    requires compiled { IsCompiled (schema_of prepared.workflow) prepared.compiled }
    requires same_events { (text : List ℕ) × (s : Said) × IsPolicyOf text s policy × (event_names s.decls ≡ prepared.workflow.events) }
    requires steps { IsStepCount steps }
    ensures { IfOk result (IsFound (DrivesUsers prepared.workflow steps policy session.now)) }
{
    let Prepared { workflow, compiled } = prepared;
    let core = match Core::start(alloc, workflow, compiled, steps) {
        Ok(core) => core,
        Err(error) => {
            drop(policy);
            return Err(error);
        }
    };
    let mut desk = Desk::new(core, policy);
    let mut caller = NOBODY;
    let output = drive(alloc, &mut desk, &mut caller, session);
    drop(desk);
    output
}

/// Drives what a script says by a session of users.
fn duty_script(
    alloc: Global,
    script: &Script,
    policy: Policy,
    session: &[Duty],
    steps: u32,
) -> Result<Output, Stop>
    requires closed { IsClosed (said script.now) }
    requires policy { (text : List ℕ) × IsPolicyOf text (said script.now) policy }
    requires steps { IsStepCount steps }
    ensures { Answers (DutySaid (said script.now) steps policy session.now) result }
{
    match prepare(alloc, script) {
        Ok(prepared) => Ok(drive_users(alloc, prepared, policy, session, steps)?),
        Err(stop) => {
            drop(policy);
            Err(stop)
        }
    }
}

/// Drives what a script says by the session of a text, whose lines are read first.
fn duty_lines(
    alloc: Global,
    script: &Script,
    policy: Policy,
    text: &[u8],
    steps: u32,
) -> Result<Output, Stop>
    requires closed { IsClosed (said script.now) }
    requires policy { (text : List ℕ) × IsPolicyOf text (said script.now) policy }
    requires steps { IsStepCount steps }
    ensures { Answers (DutyLines (said script.now) steps text.now policy) result }
{
    match read_duties(alloc, text) {
        Ok(session) => {
            let output = duty_script(alloc, script, policy, &session, steps);
            drop(session);
            output
        }
        Err(refusal) => {
            drop(policy);
            Err(Stop::from(refusal))
        }
    }
}

/// Drives what a script says by the policy and the session of a text: the policy stands before its dividing line, and is read first.
pub(crate) fn duty_text(
    alloc: Global,
    script: &Script,
    text: &[u8],
    steps: u32,
) -> Result<Output, Stop>
    requires closed { IsClosed (said script.now) }
    requires steps { IsStepCount steps }
    requires short { length text.now ≤ GREATEST_INPUT }
    ensures { Answers (DutyText (said script.now) steps text.now) result }
{
    let (end, session) = cut(text);
    let policy = policy_of(alloc, &text[..end], script)?;
    duty_lines(alloc, script, policy, &text[session..], steps)
}
