//! What is told of a session of users under a policy.
ghost use Rattle.std.specs.Prelude.{◌≡◌, ℕ, List, IfOk, Some};
ghost use Rattle.flow_form.specs.Script.{Said, said};
ghost use Rattle.flow_form.specs.Names.{IsClosed, event_names};
ghost use Rattle.flow_workflow.specs.Definition.{schema_of};
ghost use Rattle.flow_plan.specs.Compilation.{IsCompiled};
ghost use Rattle.flow_findings.specs.Refusing.{named_by, IsTold};
ghost use Rattle.flow_front.specs.Stop.{IsStop};
ghost use Rattle.flow_why_cli.specs.Explained.{IsExplainedStop};
ghost use Rattle.flow_policy.specs.Policy.{IsPolicyOf};
ghost use Rattle.flow_roles.specs.Desked.{Desked};
ghost use Rattle.flow_run_why_words.specs.Parts.{part_of};
ghost use Rattle.flow_run_why_cli.specs.Told.{TellsAnswer, Tells, IsToldOf};
ghost use Rattle.flow_run_why_cli.specs.Session.{answer_of, first_desk, IsDrivenByUsers, DrivesUsers, DutySaid, DutyLines, DutyText};

use crate::replies::tell_duties;
use crate::session::{STEPS, conclude};
use crate::stops::tell_stop;
use flow_core::Core;
use flow_form::Script;
use flow_front::{Output, Prepared, Refused, Stop, prepare};
use flow_model::GREATEST_INPUT;
use flow_policy::{Duty, Policy, policy_of, read_duties};
use flow_roles::Desk;
use flow_run_why_words::{Line, lines_said, without_divider};
use flow_why_cli::{Form, written_rules};
use flow_writer::Writer;
use std::alloc::{AllocError, Global};

/// The number of whoever calls before a user does. It is no user's.
const NOBODY: u32 = 0;

/// Drives a desk by lines of users, and tells what is refused and what waits.
fn drive_desk(
    alloc: Global,
    text: &[u8],
    desk: &mut Desk,
    duties: &[Duty],
    lines: &[Line<'_>],
    leaf: Option<&[u8]>,
    form: Form,
) -> Result<Output, AllocError>
    ensures { IfOk result (λ output. (last : Desked) × IsDrivenByUsers desk.old duties.now last × TellsAnswer (answer_of last.run) form output.status output.text.items) }
{
    let rules = written_rules(alloc, text)?;
    let mut writer = Writer::new(alloc);
    let mut caller = NOBODY;
    tell_duties(
        &mut writer,
        alloc,
        text,
        &rules,
        desk,
        &mut caller,
        duties,
        lines,
        form,
    )?;
    conclude(writer, alloc, text, &rules, desk, leaf, form)
}

/// Drives a compiled workflow by lines of users.
fn drive_users(
    alloc: Global,
    text: &[u8],
    prepared: Prepared,
    policy: Policy,
    duties: &[Duty],
    lines: &[Line<'_>],
    leaf: Option<&[u8]>,
    form: Form,
) -> Result<Output, AllocError>
    requires compiled { IsCompiled (schema_of prepared.workflow) prepared.compiled }
    requires same_events { (text : List ℕ) × (s : Said) × IsPolicyOf text s policy × (event_names s.decls ≡ prepared.workflow.events) }
    ensures { IfOk result (λ output. (last : Desked) × IsDrivenByUsers (first_desk prepared.workflow policy) duties.now last
        × TellsAnswer (answer_of last.run) form output.status output.text.items) }
{
    let Prepared { workflow, compiled } = prepared;
    let core = match Core::start(alloc, workflow, compiled, STEPS) {
        Ok(core) => core,
        Err(error) => {
            drop(policy);
            return Err(error);
        }
    };
    let mut desk = Desk::new(core, policy);
    let output = drive_desk(alloc, text, &mut desk, duties, lines, leaf, form);
    drop(desk);
    output
}

/// Drives what a script says by lines of users.
fn duty_script(
    alloc: Global,
    text: &[u8],
    script: &Script,
    policy: Policy,
    duties: &[Duty],
    lines: &[Line<'_>],
    leaf: Option<&[u8]>,
    form: Form,
) -> Result<Output, Stop>
    requires closed { IsClosed (said script.now) }
    requires policy { (text : List ℕ) × IsPolicyOf text (said script.now) policy }
    ensures { Tells form (DutySaid (said script.now) policy duties.now) result }
{
    match prepare(alloc, script) {
        Ok(prepared) => Ok(drive_users(alloc, text, prepared, policy, duties, lines, leaf, form)?),
        Err(stop) => {
            drop(policy);
            Err(stop)
        }
    }
}

/// Drives what a script says by the session of a text, which is read first. The lines are its lines.
fn duty_lines(
    alloc: Global,
    text: &[u8],
    script: &Script,
    policy: Policy,
    session: &[u8],
    lines: &[Line<'_>],
    leaf: Option<&[u8]>,
    form: Form,
) -> Result<Output, Stop>
    requires closed { IsClosed (said script.now) }
    requires policy { (text : List ℕ) × IsPolicyOf text (said script.now) policy }
    ensures { Tells form (DutyLines (said script.now) session.now policy) result }
{
    match read_duties(alloc, session) {
        Ok(duties) => {
            let output = duty_script(alloc, text, script, policy, &duties, lines, leaf, form);
            drop(duties);
            output
        }
        Err(refusal) => {
            drop(policy);
            Err(Stop::from(refusal))
        }
    }
}

/// Drives what a script says by a policy, which is read first, and the session of a text.
fn duty_text(
    alloc: Global,
    text: &[u8],
    script: &Script,
    policy: &[u8],
    session: &[u8],
    lines: &[Line<'_>],
    leaf: Option<&[u8]>,
    form: Form,
) -> Result<Output, Stop>
    requires { IsClosed (said script.now) }
    ensures { Tells form (DutyText (said script.now) policy.now session.now) result }
{
    if policy.len() > GREATEST_INPUT {
        return Err(Stop::Refused(Refused::TooLong));
    }
    let read = policy_of(alloc, policy, script)?;
    duty_lines(alloc, text, script, read, session, lines, leaf, form)
}

/// What is told of a stop: a refusal of the policy, of the session or of the workflow.
fn tell_duty_stop(
    alloc: Global,
    text: &[u8],
    script: &Script,
    policy: &[u8],
    session: &[u8],
    stop: Stop,
    form: Form,
) -> Result<Output, AllocError>
    requires closed { IsClosed (said script.now) }
    requires told { IsStop (IsTold (named_by (Some script))) stop }
    ensures { IfOk result (λ output. IsExplainedStop (named_by (Some script.entry)) stop form output.status output.text.items) }
{
    let second = if let Stop::Refused(Refused::Policy(_)) = &stop {
        policy
    } else {
        session
    };
    tell_stop(alloc, text, second, script, stop, form)
}

/// What is told of what a script says, and a session of its users under a policy.
pub(crate) fn explain_duties(
    alloc: Global,
    text: &[u8],
    script: &Script,
    policy: &[u8],
    session: &[u8],
    leaf: Option<&[u8]>,
    form: Form,
) -> Result<Output, AllocError>
    requires { IsClosed (said script.now) }
    ensures { IfOk result (λ output. IsToldOf (event_names (said script.now).decls) (DutyText (said script.now) (part_of policy.now) (part_of session.now))
        form output.status output.text.items) }
{
    let lines = lines_said(alloc, session)?;
    let who = without_divider(policy);
    let part = without_divider(session);
    match duty_text(alloc, text, script, who, part, &lines, leaf, form) {
        Ok(output) => Ok(output),
        Err(stop) => tell_duty_stop(alloc, text, script, policy, session, stop, form),
    }
}
