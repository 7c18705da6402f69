ghost use Rattle.std.specs.Prelude.{◌↔◌, IfOk, IsTrue};
ghost use Rattle.flow_model.specs.Schema.{Schema};
ghost use Rattle.flow_laws.specs.WellFormed.{IsWellFormed};
ghost use Rattle.flow_plan.specs.Compilation.{IsCompiled};
ghost use Rattle.flow_why.specs.Fronts.{IsFront};

use flow_plan::Compiled;
use flow_residual::Residual;
use std::alloc::{AllocError, Global};

/// Whether some good trace begins with the leaves.
pub(crate) fn is_front(
    alloc: Global,
    compiled: Compiled,
    leaves: &[u32],
) -> Result<bool, AllocError>
    ensures { (w : Schema) → IsWellFormed w → IsCompiled w compiled → IfOk result (λ is. IsTrue is ↔ IsFront w leaves.now) }
{
    let mut residual = Residual::new(alloc, compiled)?;
    for leaf in leaves {
        if !residual.legal_do(&[], *leaf) {
            return Ok(false);
        }
        residual.push(*leaf);
    }
    Ok(true)
}
