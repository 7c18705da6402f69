ghost use Rattle.std.specs.Prelude.{◌≡◌, IfSome};
ghost use Rattle.flow_words.specs.Words.{IsWithin};
ghost use Rattle.flow_cli.specs.Output.{Reads, StartsNoThreads};
ghost use Rattle.flow_c.specs.Calls.{mode_numbered, request_of};

use flow_model::MOST_ENTRIES;
use flow_words::{Mode, Request};

/// The mode of that number.
fn mode_numbered(number: u32) -> Option<Mode>
    ensures mode { result ≡ mode_numbered number }
    ensures reads { IfSome result Reads }
    ensures alone { IfSome result StartsNoThreads }
{
    match number {
        0 => Some(Mode::Check),
        1 => Some(Mode::Verify),
        2 => Some(Mode::Trace),
        3 => Some(Mode::Drive),
        4 => Some(Mode::Duty),
        _ => None,
    }
}

/// The request of a call, if its mode is one, and its steps are within the limits of `flow`.
pub(crate) fn request_of(mode: u32, steps: u32) -> Option<Request>
    ensures request { result ≡ request_of mode steps }
    ensures within { IfSome result IsWithin }
    ensures reads { IfSome result (λ request. Reads request.mode) }
    ensures alone { IfSome result (λ request. StartsNoThreads request.mode) }
{
    if steps == 0 || steps > MOST_ENTRIES {
        return None;
    }
    let mode = mode_numbered(mode)?;
    Some(Request {
        mode,
        steps,
        workers: 1,
        seed: 0,
        size: 1,
    })
}
