//! What is told of a session: each line that is refused, and leaves.
ghost use Rattle.std.specs.Prelude.{IfOk};
ghost use Rattle.flow_form.specs.Script.{said};
ghost use Rattle.flow_form.specs.Names.{IsClosed, event_names};
ghost use Rattle.flow_core.specs.Run.{Run};
ghost use Rattle.flow_run_why_words.specs.Parts.{part_of};
ghost use Rattle.flow_run_why_cli.specs.Told.{TellsAnswer, Tells, IsToldOf, IsExplainedWith};
ghost use Rattle.flow_run_why_cli.specs.Session.{answer_of, IsDriven, DrivesSaid, DrivesText, DrivesAsked};

use crate::duties::explain_duties;
use crate::replies::tell_commands;
use crate::stops::tell_stop;
use flow_core::{Asked, Core};
use flow_form::Script;
use flow_front::{Output, Prepared, Stop, prepare};
use flow_record::{Command, cut, read_session};
use flow_reply::{status_of, verdict_of};
use flow_run_why_words::{Line, lines_said, push_meant, push_waiting, without_divider};
use flow_why_cli::{Form, WrittenRule, explain_stop, script_of, written_rules};
use flow_writer::Writer;
use std::alloc::{AllocError, Global};

/// How long a history may be: as `flow` has it where no other number is given.
pub(crate) const STEPS: u32 = 65_536;

/// Adds what is told of the leaves: of those that the word means, or of all that wait.
fn push_leaves(
    writer: &mut Writer,
    alloc: Global,
    text: &[u8],
    rules: &[WrittenRule],
    core: &Core,
    leaf: Option<&[u8]>,
    form: Form,
) -> Result<(), AllocError> {
    match leaf {
        Some(word) => push_meant(writer, alloc, text, rules, core, word, form),
        None => push_waiting(writer, alloc, text, rules, core, form),
    }
}

/// Adds what is told of the leaves of a run that was driven.
pub(crate) fn conclude<R: Asked>(
    writer: Writer,
    alloc: Global,
    text: &[u8],
    rules: &[WrittenRule],
    run: &mut R,
    leaf: Option<&[u8]>,
    form: Form,
) -> Result<Output, AllocError>
    requires { R.can_be_asked run.old }
    ensures { IfOk result (λ output. TellsAnswer (answer_of (R.run run.old)) form output.status output.text.items) }
{
    let mut writer = writer;
    run.look_ahead();
    push_leaves(&mut writer, alloc, text, rules, run.core(), leaf, form)?;
    let verdict = verdict_of(run.core());
    Ok(Output {
        status: status_of(&verdict),
        text: writer.text,
    })
}

/// Drives a run by commands, whose lines are these, and tells what is refused and what waits.
fn drive_commands(
    alloc: Global,
    text: &[u8],
    core: &mut Core,
    commands: &[Command],
    lines: &[Line<'_>],
    leaf: Option<&[u8]>,
    form: Form,
) -> Result<Output, AllocError>
    ensures { IfOk result (λ output. (last : Run) × IsDriven core.old commands.now last × TellsAnswer (answer_of last) form output.status output.text.items) }
{
    let rules = written_rules(alloc, text)?;
    let mut writer = Writer::new(alloc);
    tell_commands(
        &mut writer,
        alloc,
        text,
        &rules,
        core,
        commands,
        lines,
        form,
    )?;
    conclude(writer, alloc, text, &rules, core, leaf, form)
}

/// Drives what a script says by commands, whose lines are these.
fn drive_script(
    alloc: Global,
    text: &[u8],
    script: &Script,
    commands: &[Command],
    lines: &[Line<'_>],
    leaf: Option<&[u8]>,
    form: Form,
) -> Result<Output, Stop>
    requires { IsClosed (said script.now) }
    ensures { Tells form (DrivesSaid (said script.now) commands.now) result }
{
    let prepared = prepare(alloc, script)?;
    let Prepared { workflow, compiled } = prepared;
    let mut core = Core::start(alloc, workflow, compiled, STEPS)?;
    let output = drive_commands(alloc, text, &mut core, commands, lines, leaf, form);
    drop(core);
    Ok(output?)
}

/// Drives what a script says by the session of a text, which is read first. The lines are its lines.
fn drive_text(
    alloc: Global,
    text: &[u8],
    script: &Script,
    session: &[u8],
    lines: &[Line<'_>],
    leaf: Option<&[u8]>,
    form: Form,
) -> Result<Output, Stop>
    requires { IsClosed (said script.now) }
    ensures { Tells form (DrivesText (said script.now) session.now) result }
{
    let commands = read_session(alloc, session)?;
    drive_script(alloc, text, script, &commands, lines, leaf, form)
}

/// What is told of what a script says, and a session of it.
fn explain_commands(
    alloc: Global,
    text: &[u8],
    script: &Script,
    session: &[u8],
    leaf: Option<&[u8]>,
    form: Form,
) -> Result<Output, AllocError>
    requires { IsClosed (said script.now) }
    ensures { IfOk result (λ output. IsToldOf (event_names (said script.now).decls) (DrivesText (said script.now) (part_of session.now)) form output.status output.text.items) }
{
    let lines = lines_said(alloc, session)?;
    let part = without_divider(session);
    match drive_text(alloc, text, script, part, &lines, leaf, form) {
        Ok(output) => Ok(output),
        Err(stop) => tell_stop(alloc, text, session, script, stop, form),
    }
}

/// What is told of a script, and a session under a policy, if there is one.
fn explain_asked(
    alloc: Global,
    text: &[u8],
    script: &Script,
    policy: Option<&[u8]>,
    session: &[u8],
    leaf: Option<&[u8]>,
    form: Form,
) -> Result<Output, AllocError>
    requires { IsClosed (said script.now) }
    ensures { IfOk result (λ output. IsToldOf (event_names (said script.now).decls) (DrivesAsked policy.entry session.now (said script.now)) form output.status output.text.items) }
{
    match policy {
        None => explain_commands(alloc, text, script, session, leaf, form),
        Some(policy) => explain_duties(alloc, text, script, policy, session, leaf, form),
    }
}

/// Why lines of a session are refused, and why leaves wait at its end: the leaf of that number, the leaves with that label, or all. With a
/// policy the session is one of its users. The status is that of `flow drive`, or of `flow duty`.
pub fn explain_session(
    alloc: Global,
    text: &[u8],
    policy: Option<&[u8]>,
    session: &[u8],
    leaf: Option<&[u8]>,
    form: Form,
) -> Result<Output, AllocError>
    ensures { IfOk result (λ output. IsExplainedWith (DrivesAsked policy.entry session.now) text.now form output.status output.text.items) }
{
    let (end, _) = cut(text);
    let part = &text[..end];
    match script_of(alloc, text) {
        Ok(script) => {
            let output = explain_asked(alloc, part, &script, policy, session, leaf, form);
            drop(script);
            output
        }
        Err(stop) => explain_stop(alloc, part, stop, None, form),
    }
}
