ghost use Rattle.std.specs.Prelude.{IfOk, OnErr};
ghost use Rattle.flow_reply.specs.Session.{Driven, IsDrivenOutput};
ghost use Rattle.flow_duty.specs.Replies.{IsFrontGiven};
ghost use Rattle.flow_duty.specs.Session.{IsUserSession};

use crate::replies::reply_to_all;
use flow_front::Output;
use flow_policy::Duty;
use flow_reply::conclude;
use flow_roles::Desk;
use std::alloc::{AllocError, Global};

/// Goes through the lines of a session, and then reports the run: the replies, and then the report.
pub fn drive(
    alloc: Global,
    desk: &mut Desk,
    caller: &mut u32,
    lines: &[Duty],
) -> Result<Output, AllocError>
    ensures ok { IfOk result (λ output. (d : Driven) × IsUserSession desk.old caller.old lines.now d desk.new caller.new
        × IsDrivenOutput d output.status output.text.items) }
    ensures err { OnErr result (IsFrontGiven desk.old caller.old lines.now desk.new caller.new) }
{
    let replies = reply_to_all(alloc, desk, caller, lines)?;
    conclude(alloc, desk.core(), replies)
}
