ghost use Rattle.std.specs.Prelude.{IfOk};
ghost use Rattle.flow_words.specs.Words.{IsWithin};
ghost use Rattle.flow_cli.specs.Output.{Reads, StartsNoThreads};
ghost use Rattle.flow_c.specs.Calls.{IsAnswer};

use crate::source::Bytes;
use flow_cli::answer_alone;
use flow_front::Output;
use flow_words::Request;
use std::alloc::{AllocError, Global};

/// What `flow` writes to the input.
pub(crate) fn answer_bytes(
    alloc: Global,
    request: Request,
    input: &[u8],
) -> Result<Output, AllocError>
    requires within { IsWithin request }
    requires reads { Reads request.mode }
    requires alone { StartsNoThreads request.mode }
    ensures { IfOk result (λ output. IsAnswer request input.now output.status output.text.items) }
{
    let mut source = Bytes { rest: input };
    answer_alone(alloc, request, &mut source)
}
