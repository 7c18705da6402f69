ghost use Rattle.std.specs.Prelude.{◌≡◌, IfOk};
ghost use Rattle.flow_model.specs.Lists.{joined};
ghost use Rattle.flow_case_words.specs.Reply.{made_pieces};

use flow_ask::Made;
use flow_model::FailEffect;
use flow_record::print_pieces;
use itoa::Buffer;
use std::alloc::{AllocError, Global};

/// Prints what was made of what a user asked about a task.
pub(crate) fn print_made<'x>(
    alloc: Global,
    user: &'x [u8],
    task: &'x [u8],
    made: Made,
) -> Result<Vec<u8>, AllocError>
    ensures { IfOk result (λ text. text.items ≡ joined (made_pieces user.now task.now made)) }
{
    match made {
        Made::Claim(_) => print_pieces(alloc, &[user, b" has ", task]),
        Made::Did => print_pieces(alloc, &[b"did ", task]),
        Made::Done => print_pieces(alloc, &[task, b" is done"]),
        Made::Failed(FailEffect::Switched) => {
            print_pieces(
                alloc,
                &[task, b" failed: it is given up, and there is another way"],
            )
        }
        Made::Failed(FailEffect::Kept) => {
            print_pieces(
                alloc,
                &[task, b" failed: it is needed, and may be taken again"],
            )
        }
        Made::Rewound(index) => {
            let mut digits = Buffer::new();
            let index = digits.format(index).as_bytes();
            print_pieces(
                alloc,
                &[b"stepped back: leaves that are still done are ", index],
            )
        }
        Made::Committed => print_pieces(alloc, &[b"committed"]),
    }
}
