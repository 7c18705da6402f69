//! Lines that are given to a run or a desk, of which those that are refused are told.
ghost use Rattle.std.specs.Prelude.{OnOk, Result};
ghost use Rattle.flow_ask.specs.declared.made.Made.{Made};
ghost use Rattle.flow_ask.specs.declared.refusal.Refusal.{Refusal};
ghost use Rattle.flow_reply.specs.Replies.{Given};
ghost use Rattle.flow_duty.specs.Replies.{IsCalled, IsLineGiven, WasGiven};
ghost use Rattle.flow_run_why_cli.specs.Session.{AreGiven, IsDriven};

use flow_ask::Ask;
use flow_core::{Asked, Core};
use flow_facts::Name;
use flow_policy::{Duty, Policy};
use flow_record::Command;
use flow_roles::Desk;
use flow_run_why_words::{Line, line_at, push_no_user, push_refused};
use flow_why_cli::{Form, WrittenRule};
use flow_writer::Writer;
use std::alloc::{AllocError, Global};

/// Whoever makes the entries of a session that has no users. It is no user's number.
const NOBODY: u32 = 0;

/// Asks the run for the caller, and adds why that is refused, where it is.
fn tell_ask<R: Asked>(
    writer: &mut Writer,
    alloc: Global,
    text: &[u8],
    rules: &[WrittenRule],
    run: &mut R,
    ask: Ask,
    by: u32,
    line: Line<'_>,
    form: Form,
) -> Result<(), AllocError>
    requires { R.can_be_asked run.old }
    ensures answers { (answer : Result Made Refusal) × R.answers run.old ask by answer run.new }
    ensures lasts { R.can_be_asked run.new }
{
    let answer = run.answer(ask, by);
    match answer {
        Ok(_) => Ok(()),
        Err(refusal) => {
            push_refused(
                writer,
                alloc,
                text,
                rules,
                run.core(),
                line,
                ask,
                refusal,
                form,
            )
        }
    }
}

/// Gives the caller's command to the run, and adds why it is refused, where it is. What shows something is not told.
fn tell_command<R: Asked>(
    writer: &mut Writer,
    alloc: Global,
    text: &[u8],
    rules: &[WrittenRule],
    run: &mut R,
    command: Command,
    by: u32,
    line: Line<'_>,
    form: Form,
) -> Result<(), AllocError>
    requires { R.can_be_asked run.old }
    ensures given { Given R.answers R.is_same by run.old command run.new }
    ensures lasts { R.can_be_asked run.new }
{
    match command {
        Command::Ask(ask) => tell_ask(writer, alloc, text, rules, run, ask, by, line, form),
        Command::Look(_) => Ok(()),
    }
}

/// Gives commands to a run, and adds why each that is refused is so. The lines are theirs.
pub(crate) fn tell_commands(
    writer: &mut Writer,
    alloc: Global,
    text: &[u8],
    rules: &[WrittenRule],
    core: &mut Core,
    commands: &[Command],
    lines: &[Line<'_>],
    form: Form,
) -> Result<(), AllocError>
    ensures { OnOk result (IsDriven core.old commands.now core.new) }
{
    for (place, command) in commands.iter().enumerate() {
        let line = line_at(lines, place);
        tell_command(
            writer, alloc, text, rules, core, *command, NOBODY, line, form,
        )?;
    }
    Ok(())
}

/// Lets the user of that name call, where there is one, and adds that there is none.
fn call(
    writer: &mut Writer,
    policy: &Policy,
    caller: &mut u32,
    name: &Name,
    line: Line<'_>,
    form: Form,
) -> Result<(), AllocError>
    ensures { IsCalled policy.now caller.old name.now caller.new }
{
    match policy.user(name) {
        Some(user) => {
            *caller = user;
            Ok(())
        }
        None => push_no_user(writer, line, form),
    }
}

/// Gives a line to the desk, and adds why it is refused, where it is. Who is called calls from then on.
fn tell_duty(
    writer: &mut Writer,
    alloc: Global,
    text: &[u8],
    rules: &[WrittenRule],
    desk: &mut Desk,
    caller: &mut u32,
    duty: &Duty,
    line: Line<'_>,
    form: Form,
) -> Result<(), AllocError>
    ensures { IsLineGiven desk.old caller.old duty.now desk.new caller.new }
{
    match duty {
        Duty::As(name) => call(writer, desk.policy(), caller, name, line, form),
        Duty::Command(command) => {
            tell_command(
                writer, alloc, text, rules, desk, *command, *caller, line, form,
            )
        }
    }
}

/// Gives the lines of users to a desk, and adds why each that is refused is so.
pub(crate) fn tell_duties(
    writer: &mut Writer,
    alloc: Global,
    text: &[u8],
    rules: &[WrittenRule],
    desk: &mut Desk,
    caller: &mut u32,
    duties: &[Duty],
    lines: &[Line<'_>],
    form: Form,
) -> Result<(), AllocError>
    ensures { OnOk result (AreGiven WasGiven (desk.old, caller.old) duties.now (desk.new, caller.new)) }
{
    for (place, duty) in duties.iter().enumerate() {
        let line = line_at(lines, place);
        tell_duty(writer, alloc, text, rules, desk, caller, duty, line, form)?;
    }
    Ok(())
}
