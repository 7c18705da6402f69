//! A search through the options of a run's workflow.
ghost use Rattle.std.specs.Prelude.{IfOk};
ghost use Rattle.flow_core.specs.Run.{schema};
ghost use Rattle.flow_plan.specs.Compilation.{IsCompiled};
ghost use Rattle.flow_questions.specs.Questions.{HoldsRoles, LooksIn};

use flow_case::RuledRun;
use flow_plan::Compiled;
use flow_stages::{Question, Searched, Subject, search_options};
use std::alloc::{AllocError, Global};

/// Looks through the options of the run's workflow for what is asked.
pub(crate) fn look_for(
    alloc: Global,
    run: &RuledRun,
    compiled: &Compiled,
    users: u32,
    question: Question,
    left: &mut u64,
) -> Result<Searched, AllocError>
    requires roles { HoldsRoles run.now.desk.assigned.duties users }
    requires compiled { IsCompiled (schema run.now.desk.run) compiled.now }
    ensures { IfOk result (LooksIn run.now question left.new) }
{
    let workflow = run.core().workflow();
    // what it keeps of its goal
    let _ = workflow.tree();
    let subject = Subject {
        workflow,
        compiled,
        policy: run.policy(),
        users,
    };
    search_options(alloc, subject, question, left)
}
