ghost use Rattle.std.specs.Prelude.{IfOk};
ghost use Rattle.flow_c.specs.Calls.{IsStepObject};

use flow_step::step;
use std::alloc::{AllocError, Global};

/// What comes of a step, as an object of JSON, and the status that goes with it.
pub(crate) fn step_object(
    alloc: Global,
    text: &[u8],
    policy: &[u8],
    history: &[u8],
    by: u32,
    line: &[u8],
) -> Result<(Vec<u8>, u8), AllocError>
    ensures { IfOk result (λ came. IsStepObject text.now policy.now history.now by line.now came.0.items came.1) }
{
    let stepped = step(alloc, text, policy, history, by, line)?;
    let code = stepped.code();
    let object = stepped.print(alloc)?;
    Ok((object, code))
}
