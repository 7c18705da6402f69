ghost use Rattle.std.specs.Prelude.{IfOk, OnErr};
ghost use Rattle.flow_core.specs.Run.{schema};
ghost use Rattle.flow_core.specs.Lawful.{IsLawful};
ghost use Rattle.flow_reply.specs.Replies.{IsFrontGiven};
ghost use Rattle.flow_reply.specs.Session.{Driven, came_of, IsSession, IsDrivenOutput};

use crate::ending::{status_of, verdict_of};
use crate::replies::reply_to_all;
use crate::report::print_report;
use flow_core::Core;
use flow_front::Output;
use flow_record::Command;
use std::alloc::{AllocError, Global};

/// Goes through the commands of a caller, and then reports the run: the replies, and then the report.
pub fn drive(
    alloc: Global,
    core: &mut Core,
    commands: &[Command],
    by: u32,
) -> Result<Output, AllocError>
    ensures ok { IfOk result (λ output. (d : Driven) × IsSession core.old by commands.now d × IsDrivenOutput d output.status output.text.items) }
    ensures err { OnErr result (IsFrontGiven core.old by commands.now core.new) }
{
    let replies = reply_to_all(alloc, core, commands, by)?;
    conclude(alloc, core, replies)
}

/// Reports a run after the replies that led to it.
pub fn conclude(alloc: Global, core: &Core, replies: Vec<u8>) -> Result<Output, AllocError>
    ensures output { IfOk result (λ output. IsDrivenOutput (came_of replies.items core.now) output.status output.text.items) }
    ensures lawful { IsLawful (schema core.now) core.now.limit core.now.history }
{
    let verdict = verdict_of(core);
    let report = print_report(alloc, core, &verdict)?;
    let mut text = replies;
    text.extend_from_slice(&report)?;
    let status = status_of(&verdict);
    Ok(Output { status, text })
}
