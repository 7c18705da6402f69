ghost use Rattle.std.specs.Prelude.{◌≡◌, IfOk};
ghost use Rattle.flow_words.specs.Usage.{usage_text};

use std::alloc::{AllocError, Global};

/// How the program is called: a line with the options, and one with the modes.
const USAGE: &[u8] = b"usage: flow MODE [--steps N] [--workers N] [--seed N] [--size N]
modes: drive run check verify trace gen large duty audit
";

/// Prints how the program is called.
pub fn print_usage(alloc: Global) -> Result<Vec<u8>, AllocError>
    ensures { IfOk result (λ text. text.items ≡ usage_text) }
{
    Vec::from_slice(alloc, USAGE)
}
