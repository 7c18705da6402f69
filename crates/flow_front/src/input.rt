ghost use Rattle.std.specs.Prelude.{◌≡◌, ◌<◌, ◌≤◌, ◌-◌, ◌^◌, ◌↔◌, length, IfOk, IfErr, Err};
ghost use Rattle.flow_form.specs.Script.{said};
ghost use Rattle.flow_form.specs.Names.{IsClosed};
ghost use Rattle.flow_findings.specs.declared.refused.Refused.TheVariants as refused;
ghost use Rattle.flow_front.specs.declared.stop.Stop.TheVariants as stop;
ghost use Rattle.flow_front.specs.Stop.{IsStop};
ghost use Rattle.flow_front.specs.Refusal.{the_source, IsCause};
ghost use Rattle.flow_front.specs.Input.{IsInput, IsInputOf, IsTextCause, LeavesSource};

use crate::stop::Stop;
use flow_form::Script;
use flow_io::{Source, read_all};
use flow_model::GREATEST_INPUT;
use flow_record::cut;
use flow_text::parse;
use std::alloc::Global;

/// What a source says: a workflow, and the text that follows it.
#[derive(Drop)]
pub struct Input {
    pub script: Script,
    /// A session, a query, a journal or several, as the mode asks.
    pub second: Vec<u8>,
}

/// What an input says.
fn input_of(alloc: Global, bytes: &[u8]) -> Result<Input, Stop>
    requires { length bytes.now ≤ GREATEST_INPUT }
    ensures input { IfOk result (λ input. IsInput bytes.now (said input.script) input.second.items) }
    ensures closed { IfOk result (λ input. IsClosed (said input.script)) }
    ensures stop { IfErr result (IsStop (IsTextCause bytes.now)) }
{
    let (end, second) = cut(bytes);
    let second = Vec::from_slice(alloc, &bytes[second..])?;
    let script = parse(alloc, &bytes[..end])?;
    Ok(Input { script, second })
}

/// Reads a source to its end, and what its first part says.
pub fn read_input<S: Source>(alloc: Global, source: &mut S) -> Result<Input, Stop>
    requires { S.faults source.old < 2 ^ 64 - 1 }
    ensures input { IfOk result (λ input. IsInputOf (S.left source.old) (said input.script) input.second.items) }
    ensures closed { IfOk result (λ input. IsClosed (said input.script)) }
    ensures stop { IfErr result (IsStop (IsCause (the_source (S.left source.old)))) }
    ensures fault { (result ≡ Err (stop.Refused refused.Read)) ↔ (S.faults source.old < S.faults source.new) }
    // all is read, but of an input that is too long just one byte more than the limit
    ensures left { LeavesSource (S.left source.old) (S.left source.new) result }
{
    let bytes = read_all(alloc, source, GREATEST_INPUT)?;
    input_of(alloc, &bytes)
}
