ghost use Rattle.std.specs.Prelude.{◌≡◌, IfOk, OnErr};
ghost use Rattle.flow_duty.specs.Replies.{CallsAs, IsCalled, RepliesToLine, IsLineGiven, DrivesDesk, IsFrontGiven};

use flow_facts::Name;
use flow_policy::{Duty, Policy};
use flow_record::print_pieces;
use flow_roles::Desk;
use std::alloc::{AllocError, Global};

/// Gives a line to the desk, and gives the line of the reply. Who is called calls from then on. Where memory is wanted for the reply, the
/// line was given.
pub fn reply_to(
    alloc: Global,
    desk: &mut Desk,
    caller: &mut u32,
    line: &Duty,
) -> Result<Vec<u8>, AllocError>
    ensures ok { IfOk result (λ reply. RepliesToLine desk.old caller.old line.now reply.items desk.new caller.new) }
    ensures err { OnErr result (IsLineGiven desk.old caller.old line.now desk.new caller.new) }
{
    match line {
        Duty::As(name) => call(alloc, desk.policy(), caller, name),
        Duty::Command(command) => flow_reply::reply_to(alloc, desk, command, *caller),
    }
}

/// Lets the user of that name call, where there is one, and gives the line of the reply.
fn call(
    alloc: Global,
    policy: &Policy,
    caller: &mut u32,
    name: &Name,
) -> Result<Vec<u8>, AllocError>
    ensures ok { IfOk result (λ reply. CallsAs policy.now caller.old name.now reply.items caller.new) }
    ensures err { OnErr result (IsCalled policy.now caller.old name.now caller.new) }
{
    match policy.user(name) {
        Some(user) => {
            *caller = user;
            print_pieces(alloc, &[b"as ", name.bytes(), b"\n"])
        }
        None => Vec::from_slice(alloc, b"refused user\n"),
    }
}

/// Goes through the lines of a session, and gives the replies.
pub fn reply_to_all(
    alloc: Global,
    desk: &mut Desk,
    caller: &mut u32,
    lines: &[Duty],
) -> Result<Vec<u8>, AllocError>
    ensures ok { IfOk result (λ text. DrivesDesk desk.old caller.old lines.now text.items desk.new caller.new) }
    ensures err { OnErr result (IsFrontGiven desk.old caller.old lines.now desk.new caller.new) }
{
    let mut text = Vec::new(alloc);
    for line in lines {
        text.extend_from_slice(&reply_to(alloc, desk, caller, line)?)?;
    }
    Ok(text)
}
