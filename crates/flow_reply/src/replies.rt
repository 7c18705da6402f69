ghost use Rattle.std.specs.Prelude.{IfOk, OnErr};
ghost use Rattle.flow_reply.specs.Replies.{Replies, Given, Goes, GoesPart};

use crate::answer::answer_line;
use crate::look::look_line;
use flow_ask::Look;
use flow_core::Asked;
use flow_record::Command;
use std::alloc::{AllocError, Global};

/// Gives the command of a caller to the run, and gives the line of the reply. Where memory is wanted for that, the command was given.
pub fn reply_to<R: Asked>(
    alloc: Global,
    run: &mut R,
    command: &Command,
    by: u32,
) -> Result<Vec<u8>, AllocError>
    requires { R.can_be_asked run.old }
    ensures ok { IfOk result (λ line. Replies R.run R.answers R.is_same by run.old command.now line.items run.new) }
    ensures err { OnErr result (Given R.answers R.is_same by run.old command.now run.new) }
    ensures lasts { R.can_be_asked run.new }
{
    match *command {
        Command::Ask(ask) => {
            let answer = run.answer(ask, by);
            answer_line(alloc, run.core(), ask, &answer)
        }
        Command::Look(look) => {
            look_at(run, look);
            look_line(alloc, run.core(), look)
        }
    }
}

/// Is called before a look is shown: two of them ask of every leaf what may come next.
fn look_at<R: Asked>(run: &mut R, look: Look)
    ensures same { R.is_same run.old run.new }
    ensures lasts { R.can_be_asked run.old → R.can_be_asked run.new }
{
    match look {
        Look::Next | Look::Enabled => run.look_ahead(),
        Look::Journal | Look::Facts => {}
    }
}

/// Goes through the commands of a caller, and gives the replies.
pub fn reply_to_all<R: Asked>(
    alloc: Global,
    run: &mut R,
    commands: &[Command],
    by: u32,
) -> Result<Vec<u8>, AllocError>
    requires { R.can_be_asked run.old }
    ensures ok { IfOk result (λ text. Goes (Replies R.run R.answers R.is_same by) run.old commands.now text.items run.new) }
    ensures err { OnErr result (GoesPart (Given R.answers R.is_same by) run.old commands.now run.new) }
    ensures lasts { R.can_be_asked run.new }
{
    let mut text = Vec::new(alloc);
    for command in commands {
        text.extend_from_slice(&reply_to(alloc, run, command, by)?)?;
    }
    Ok(text)
}
