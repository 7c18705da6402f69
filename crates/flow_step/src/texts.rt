//! The texts of a step: what they say, or why they are refused.
ghost use Rattle.std.specs.Prelude.{◌≡◌, ◌<◌, ◌^◌, length, IfOk, IfErr};
ghost use Rattle.flow_form.specs.Script.{said};
ghost use Rattle.flow_form.specs.Names.{IsClosed};
ghost use Rattle.flow_front.specs.Stop.{IsStop};
ghost use Rattle.flow_step.specs.Texts.{SaysShort, IsTextCause, SaysCommand, IsLineCause, not_one};
ghost use Rattle.flow_front.specs.declared.stop.Stop.TheVariants as stop;

use flow_findings::Refused;
use flow_form::Script;
use flow_front::Stop;
use flow_model::GREATEST_INPUT;
use flow_record::{Command, RecordRefusal, read_session};
use flow_text::parse;
use std::alloc::Global;

/// What the text of a workflow says, where neither it nor the text of its policy is too long.
pub(crate) fn read_script(alloc: Global, text: &[u8], policy: &[u8]) -> Result<Script, Stop>
    ensures says { IfOk result (λ script. SaysShort text.now policy.now (said script)) }
    ensures closed { IfOk result (λ script. IsClosed (said script)) }
    ensures stop { IfErr result (IsStop (IsTextCause text.now policy.now)) }
{
    if text.len() > GREATEST_INPUT || policy.len() > GREATEST_INPUT {
        return Err(Stop::Refused(Refused::TooLong));
    }
    Ok(parse(alloc, text)?)
}

/// The one command that a line is.
pub(crate) fn read_command(alloc: Global, line: &[u8]) -> Result<Command, Stop>
    ensures says { IfOk result (SaysCommand line.now) }
    ensures stop { IfErr result (IsStop (IsLineCause line.now)) }
{
    let commands = match read_session(alloc, line) {
        Ok(commands) => commands,
        Err(RecordRefusal::NoMemory) => return Err(Stop::NoMemory),
        Err(_) => return Err(no_command()),
    };
    match commands.as_slice() {
        [command] => Ok(*command),
        _ => Err(no_command()),
    }
}

/// That a line is not one command.
fn no_command() -> Stop
    ensures { result ≡ stop.Refused not_one }
{
    Stop::Refused(Refused::Record(RecordRefusal::BadLine { line: 0 }))
}
