ghost use Rattle.std.specs.Prelude.{◌≤◌, length, IfOk, IfErr, Some};
ghost use Rattle.flow_form.specs.Script.{said};
ghost use Rattle.flow_form.specs.Names.{IsClosed};
ghost use Rattle.flow_text.specs.Saying.{Says};
ghost use Rattle.flow_model.specs.declared.limits.TheConstants.{GREATEST_INPUT};
ghost use Rattle.flow_front.specs.Stop.{IsStop};
ghost use Rattle.flow_front.specs.Refusal.{the_source, workflow_part, IsCause};
ghost use Rattle.flow_front.specs.Input.{IsTextCause};

use flow_form::Script;
use flow_front::{Refused, Stop};
use flow_model::GREATEST_INPUT;
use flow_record::cut;
use flow_text::parse;
use std::alloc::Global;

/// What the first part of a text says.
fn parse_part(alloc: Global, text: &[u8]) -> Result<Script, Stop>
    requires { length text.now ≤ GREATEST_INPUT }
    ensures says { IfOk result (λ script. Says (workflow_part text.now) (said script)) }
    ensures closed { IfOk result (λ script. IsClosed (said script)) }
    ensures stop { IfErr result (IsStop (IsTextCause text.now)) }
{
    let (end, _) = cut(text);
    Ok(parse(alloc, &text[..end])?)
}

/// What the text of a workflow says. What stands behind a line `%%` is not looked at.
pub fn script_of(alloc: Global, text: &[u8]) -> Result<Script, Stop>
    ensures says { IfOk result (λ script. Says (workflow_part text.now) (said script)) }
    ensures closed { IfOk result (λ script. IsClosed (said script)) }
    ensures stop { IfErr result (IsStop (IsCause (the_source (Some text.now)))) }
{
    if text.len() > GREATEST_INPUT {
        return Err(Stop::Refused(Refused::TooLong));
    }
    parse_part(alloc, text)
}
