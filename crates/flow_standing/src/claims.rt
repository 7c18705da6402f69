ghost use Rattle.std.specs.Prelude.{IfOk};
ghost use Rattle.flow_core.specs.Run.{schema};
ghost use Rattle.flow_standing.specs.Out.{AreClaimsOut};
ghost use Rattle.flow_standing.specs.Following.{FindsOut};

use flow_core::Core;
use flow_model::{Call, Entry, Step};
use std::alloc::{AllocError, Global};

/// A claim that is out.
#[derive(Clone, Copy)]
pub struct Out {
    /// Its number, its leaf, its event, and which claim on that event it is.
    pub call: Call,
    /// The caller who took it.
    pub holder: u32,
    /// The place in the history of the entry that gave it.
    pub place: usize,
}

/// The claims that are out, by rising number.
pub fn claims_out(alloc: Global, core: &Core) -> Result<Vec<Out>, AllocError>
    ensures { IfOk result (λ outs. AreClaimsOut (schema core.now) core.now.history outs.items) }
{
    let mut outs = Vec::new(alloc);
    for (place, entry) in core.history().iter().enumerate() {
        if let Some(out) = out_at(core, place, *entry) {
            outs.push(out)?;
        }
    }
    Ok(outs)
}

/// The claim that the entry gave, where it is out.
fn out_at(core: &Core, place: usize, entry: Entry) -> Option<Out>
    ensures { FindsOut (schema core.now) core.now.history place entry result }
{
    let Step::Took { claim, .. } = entry.step else {
        return None;
    };
    if !core.is_current(claim) {
        return None;
    }
    // a claim that is out is not answered
    let Some(call) = core.call_of(claim) else {
        unreachable!();
    };
    Some(Out {
        call,
        holder: entry.by,
        place,
    })
}
