//! All options of a workflow, searched one after another.
ghost use Rattle.std.specs.Prelude.{◌≤◌, IfOk};
ghost use Rattle.flow_workflow.specs.Definition.{schema_of};
ghost use Rattle.flow_stages.specs.Fitting.{HoldsRoles};
ghost use Rattle.flow_stages.specs.Found.{TellsOf};

use crate::question::Question;
use crate::search::{Look, Search, Searched};
use crate::staffing::Staff;
use flow_plan::Compiled;
use flow_policy::Policy;
use flow_workflow::Workflow;
use std::alloc::{AllocError, Global};

/// A workflow with its options, under a policy, and a number past those of all users who have a role.
#[derive(Clone, Copy)]
pub struct Subject<'a> {
    pub workflow: &'a Workflow,
    pub compiled: &'a Compiled,
    pub policy: &'a Policy,
    pub users: u32,
}

/// Looks through the options for what is asked. Each stage that is looked at, and each taker that is looked for, is a state.
pub fn search_options(
    alloc: Global,
    subject: Subject<'_>,
    question: Question,
    states: &mut u64,
) -> Result<Searched, AllocError>
    requires { HoldsRoles subject.policy.now.duties subject.users }
    ensures told { IfOk result (TellsOf (schema_of subject.entry.workflow.now) subject.entry.policy.now.duties subject.entry.compiled.now.plans question states.new) }
    ensures fewer { states.new ≤ states.old }
{
    let Subject {
        workflow,
        compiled,
        policy,
        users,
    } = subject;
    for kept in compiled.plans() {
        let search = Search {
            workflow,
            staff: Staff { policy, users },
            folds: compiled.folds(),
            plan: kept.plan(),
            question,
        };
        match search.run(alloc, states)? {
            Look::Open => {}
            Look::Hopeless => unreachable!(),
            Look::Spent => return Ok(Searched::Spent),
            Look::Shown(leaves, takers, event) => {
                return Ok(Searched::Shown {
                    leaves,
                    takers,
                    event,
                });
            }
        }
    }
    Ok(Searched::Nothing)
}
