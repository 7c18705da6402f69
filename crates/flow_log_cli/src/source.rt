ghost use Rattle.std.specs.Prelude.{◌≤◌, length, IfOk};
ghost use Rattle.flow_text.specs.Saying.{Says};
ghost use Rattle.flow_front.specs.Prepared.{IsPrepared};
ghost use Rattle.flow_front.specs.Refusal.{workflow_part};
ghost use Rattle.flow_log_cli.specs.Source.{IsPreparedOf};
ghost use Rattle.flow_form.specs.Script.{said};
ghost use Rattle.flow_form.specs.Names.{IsClosed};
ghost use Rattle.flow_workflow.specs.Definition.{schema_of};
ghost use Rattle.flow_plan.specs.Compilation.{IsCompiled};
ghost use Rattle.flow_model.specs.declared.limits.TheConstants.{GREATEST_INPUT};

use flow_form::Script;
use flow_front::{Prepared, Refused, Stop, prepare};
use flow_model::GREATEST_INPUT;
use flow_record::cut;
use flow_text::parse;
use std::alloc::Global;

/// What the first part of a text says.
fn parse_part(alloc: Global, text: &[u8]) -> Result<Script, Stop>
    requires { length text.now ≤ GREATEST_INPUT }
    ensures says { IfOk result (λ script. Says (workflow_part text.now) (said script)) }
    ensures closed { IfOk result (λ script. IsClosed (said script)) }
{
    let (end, _) = cut(text);
    Ok(parse(alloc, &text[..end])?)
}

/// What a closed script says, expanded and compiled.
fn prepare_script(alloc: Global, script: &Script) -> Result<Prepared, Stop>
    requires { IsClosed (said script.now) }
    ensures { IfOk result (λ prepared. IsPrepared (said script.now) prepared.workflow prepared.compiled) }
{
    prepare(alloc, script)
}

/// The workflow of a text, compiled. What stands behind a line `%%` is not looked at.
pub fn workflow_of(alloc: Global, text: &[u8]) -> Result<Prepared, Stop>
    ensures said { IfOk result (IsPreparedOf text.now) }
    ensures compiled { IfOk result (λ prepared. IsCompiled (schema_of prepared.workflow) prepared.compiled) }
{
    if text.len() > GREATEST_INPUT {
        return Err(Stop::Refused(Refused::TooLong));
    }
    let script = parse_part(alloc, text)?;
    let prepared = prepare_script(alloc, &script);
    drop(script);
    prepared
}
