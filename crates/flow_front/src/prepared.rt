ghost use Rattle.std.specs.Prelude.{◌≡◌, IfOk, IfErr};
ghost use Rattle.flow_form.specs.Script.{said};
ghost use Rattle.flow_form.specs.Names.{IsClosed};
ghost use Rattle.flow_workflow.specs.Definition.{schema_of};
ghost use Rattle.flow_expand.specs.Workflows.{IsExpanded};
ghost use Rattle.flow_plan.specs.Compilation.{IsCompiled};
ghost use Rattle.flow_front.specs.Stop.{IsStop};
ghost use Rattle.flow_front.specs.Refusal.{the_script, the_workflow, IsCause};
ghost use Rattle.flow_front.specs.Prepared.{IsPrepared, IsNotPrepared};

use crate::stop::Stop;
use flow_excise::compile;
use flow_expand::expand;
use flow_form::Script;
use flow_plan::Compiled;
use flow_workflow::Workflow;
use std::alloc::Global;

/// A workflow, and what it is compiled to.
#[derive(Drop)]
pub struct Prepared {
    pub workflow: Workflow,
    pub compiled: Compiled,
}

/// The workflow that a script says.
pub fn expand_script(alloc: Global, script: &Script) -> Result<Workflow, Stop>
    requires { IsClosed (said script.now) }
    ensures workflow { IfOk result (IsExpanded (said script.now)) }
    ensures stop { IfErr result (IsStop (IsCause (the_script (said script.now)))) }
{
    Ok(expand(alloc, script)?)
}

/// A workflow compiled, by its tree and its rules.
pub fn compile_workflow(alloc: Global, workflow: &Workflow) -> Result<Compiled, Stop>
    ensures compiled { IfOk result (λ compiled. IsCompiled (schema_of workflow.now) compiled) }
    ensures stop { IfErr result (IsStop (IsCause (the_workflow (schema_of workflow.now)))) }
{
    Ok(compile(alloc, workflow.tree(), workflow.rules())?)
}

/// The workflow that a script says, compiled.
pub fn prepare(alloc: Global, script: &Script) -> Result<Prepared, Stop>
    requires { IsClosed (said script.now) }
    ensures prepared { IfOk result (λ prepared. IsPrepared (said script.now) prepared.workflow prepared.compiled) }
    ensures stop { IfErr result (IsStop (IsNotPrepared (said script.now))) }
{
    let workflow = expand_script(alloc, script)?;
    match compile_workflow(alloc, &workflow) {
        Ok(compiled) => Ok(Prepared { workflow, compiled }),
        Err(stop) => {
            drop(workflow);
            Err(stop)
        }
    }
}
