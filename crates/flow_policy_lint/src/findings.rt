ghost use Rattle.std.specs.Prelude.{◌≡◌, ◌↔◌, map, length, IsTrue, IfOk};
ghost use Rattle.flow_policy_lint.specs.Heads.{said};
ghost use Rattle.flow_policy_lint.specs.Told.{ArePolicyFindings, IsNothing};

use crate::events::untaken;
use crate::heads::Head;
use crate::last::StuckBehind;
use crate::pairs::pairs;
use crate::roles::idle_roles;
use crate::ties::{UnmetBinds, UnmetSeparates};
use flow_case::CaseRules;
use flow_policy::Policy;
use flow_workflow::Workflow;
use std::alloc::{AllocError, Global};

/// What to look at in a policy.
#[derive(Drop)]
pub struct PolicyFindings {
    /// The events that no user has a role for.
    pub untaken: Vec<u32>,
    /// The numbers of the statements that give a role to which no statement allows something.
    pub idle_roles: Vec<u32>,
    /// Each two bound events that no one user may both have, the lesser first.
    pub unmet_binds: Vec<(u32, u32)>,
    /// Each two separate events that no two users may have, the lesser first.
    pub unmet_separates: Vec<(u32, u32)>,
    /// Each final event with a task behind it that has no way out where it fails.
    pub stuck: Vec<(u32, u32)>,
}

/// How many events there are.
fn count_of(workflow: &Workflow) -> u32
    ensures { result ≡ length workflow.now.events }
{
    // there are fewer events than numbers
    workflow.events().len() as u32
}

/// What to look at in the policy of a workflow. `heads` are what the policy's statements begin with; users have numbers below
/// `users`. It compiles the workflow up to three times for each final event and each event.
pub fn lint_policy(
    alloc: Global,
    workflow: &Workflow,
    policy: &Policy,
    rules: &CaseRules,
    heads: &[Head<'_>],
    users: u32,
) -> Result<PolicyFindings, AllocError>
    ensures { IfOk result (λ found. ArePolicyFindings policy.now.duties users (map said heads.now) workflow.now rules.now.finals found) }
{
    let count = count_of(workflow);
    let untaken = untaken(alloc, policy, users, count)?;
    let idle_roles = idle_roles(alloc, heads)?;
    let unmet_binds = pairs(alloc, &UnmetBinds { policy, users }, count)?;
    let unmet_separates = pairs(alloc, &UnmetSeparates { policy, users }, count)?;
    let stuck = pairs(alloc, &StuckBehind { workflow, rules }, count)?;
    Ok(PolicyFindings {
        untaken,
        idle_roles,
        unmet_binds,
        unmet_separates,
        stuck,
    })
}

impl PolicyFindings {
    /// Whether nothing is found.
    pub fn is_empty(&self) -> bool
        ensures { IsTrue result ↔ IsNothing self.now }
    {
        self.untaken.is_empty()
            && self.idle_roles.is_empty()
            && self.unmet_binds.is_empty()
            && self.unmet_separates.is_empty()
            && self.stuck.is_empty()
    }
}
