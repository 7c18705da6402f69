ghost use Rattle.std.specs.Prelude.{◌≡◌, ◌++◌, OnOk, map};
ghost use Rattle.flow_lint.specs.Finding.{finding};

use crate::kind::Kind;
use std::alloc::AllocError;

/// Something to look at.
#[derive(Clone, Copy, Debug, PartialEq, Eq)]
pub struct Finding {
    pub kind: Kind,
    /// The number of the fact, event, declaration, leaf, constraint, `nop` or `iso`, from 0, as the kind says.
    pub number: u32,
}

/// Adds a finding of that kind for each of the numbers.
pub(crate) fn push_each(
    found: &mut Vec<Finding>,
    kind: Kind,
    numbers: &[u32],
) -> Result<(), AllocError>
    ensures { OnOk result (found.new.items ≡ found.old.items ++ map (finding kind) numbers.now) }
{
    for number in numbers {
        found.push(Finding {
            kind,
            number: *number,
        })?;
    }
    Ok(())
}
