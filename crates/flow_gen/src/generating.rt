ghost use Rattle.std.specs.Prelude.{◌≡◌, ◌≤◌, IfOk};
ghost use Rattle.flow_model.specs.declared.limits.TheConstants.{GREATEST_SEED, GREATEST_SIZE};
ghost use Rattle.flow_text.specs.Printed.{printed};
ghost use Rattle.flow_gen.specs.Generated.{generated};

use crate::script::script_of;
use flow_text::print;
use std::alloc::{AllocError, Global};

/// A workflow text of `8 * size` events, the same for the same seed and size: for each two blocks of eight events a
/// pair side by side, the pairs in series, and a constraint from each block to the next.
pub fn generate(alloc: Global, seed: u32, size: u32) -> Result<Vec<u8>, AllocError>
    requires seed { seed ≤ GREATEST_SEED }
    requires some { 1 ≤ size }
    requires few { size ≤ GREATEST_SIZE }
    ensures { IfOk result (λ text. text.items ≡ printed (generated seed size)) }
{
    let script = script_of(alloc, seed, size)?;
    print(alloc, &script)
}
