ghost use Rattle.std.specs.Prelude.{◌≡◌, IfOk};
ghost use Rattle.flow_case_words.specs.Reply.{reply_text};

use crate::made::print_made;
use crate::refused::print_refusal;
use flow_ask::Answer;
use std::alloc::{AllocError, Global};

/// Prints the answer to what a user asked about a task. The task is a leaf's label; it is empty where the ask is about none.
pub fn print_reply<'x>(
    alloc: Global,
    user: &'x [u8],
    task: &'x [u8],
    answer: &Answer,
) -> Result<Vec<u8>, AllocError>
    ensures { IfOk result (λ text. text.items ≡ reply_text user.now task.now answer.now) }
{
    match *answer {
        Ok(made) => print_made(alloc, user, task, made),
        Err(refusal) => print_refusal(alloc, user, task, refusal),
    }
}
