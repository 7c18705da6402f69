ghost use Rattle.std.specs.Prelude.{◌≡◌, IfOk};
ghost use Rattle.flow_model.specs.Verdict.{AreJust};
ghost use Rattle.flow_policy_lint.specs.Findings.{IsOneBelow, IsForNobody};

use flow_policy::Policy;
use flow_staff::is_for_nobody;
use std::alloc::{AllocError, Global};

/// The events below that number that no user has a role for.
pub(crate) fn untaken(
    alloc: Global,
    policy: &Policy,
    users: u32,
    count: u32,
) -> Result<Vec<u32>, AllocError>
    ensures { IfOk result (λ found. AreJust (IsOneBelow count (IsForNobody policy.now.duties users)) found.items) }
{
    let mut found = Vec::new(alloc);
    for event in 0..count {
        if is_for_nobody(policy, event, users) {
            found.push(event)?;
        }
    }
    Ok(found)
}
