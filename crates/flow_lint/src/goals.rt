ghost use Rattle.std.specs.Prelude.{◌≡◌, IfOk, map};
ghost use Rattle.std.specs.List.{flat_map};
ghost use Rattle.flow_form.specs.Names.{flow_goal, goals_of};
ghost use Rattle.flow_form.specs.Script.{declared, said};
ghost use Rattle.flow_lint.specs.Goals.{shapes_of};

use flow_form::{Decl, Form, Script};
use std::alloc::{AllocError, Global};

/// The goals of the sub-workflows, in the order of their declarations.
fn flow_goals(alloc: Global, decls: &[Decl]) -> Result<Vec<&Form>, AllocError>
    ensures { IfOk result (λ goals. shapes_of goals.items ≡ flat_map flow_goal (map declared decls.now)) }
{
    let mut goals = Vec::new(alloc);
    for decl in decls {
        if let Decl::Flow(_, goal) = decl {
            goals.push(goal)?;
        }
    }
    Ok(goals)
}

/// The goals that are written: those of sub-workflows in the order of their declarations, and then the goal.
pub(crate) fn goals_of(alloc: Global, script: &Script) -> Result<Vec<&Form>, AllocError>
    ensures { IfOk result (λ goals. shapes_of goals.items ≡ goals_of (said script.now)) }
{
    let mut goals = flow_goals(alloc, &script.decls)?;
    goals.push(&script.goal)?;
    Ok(goals)
}
