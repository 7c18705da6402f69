ghost use Rattle.std.specs.Prelude.{◌≡◌, ◌++◌, codes, IfOk};
ghost use Rattle.std.specs.Fmt.{decimal};

use flow_record::print_pieces;
use itoa::Buffer;
use std::alloc::{AllocError, Global};

/// Prints a refusal of one word and a number.
pub(crate) fn print_numbered(alloc: Global, word: &str, number: u64) -> Result<Vec<u8>, AllocError>
    ensures { IfOk result (λ line. line.items ≡ codes "refused: " ++ (word.now ++ codes " " ++ decimal number) ++ codes "\n") }
{
    let mut digits = Buffer::new();
    let number = digits.format(number);
    print_pieces(
        alloc,
        &[
            b"refused: ",
            word.as_bytes(),
            b" ",
            number.as_bytes(),
            b"\n",
        ],
    )
}
