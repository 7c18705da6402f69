//! Leaves that were given up.
ghost use Rattle.std.specs.Prelude.{◌≡◌, ◌<◌, ◌↔◌, false, IsTrue, IfOk, length};
ghost use Rattle.flow_model.specs.Verdict.{AreJust};
ghost use Rattle.flow_plan.specs.Compilation.{IsCompiled};
ghost use Rattle.flow_core.specs.Run.{schema};
ghost use Rattle.flow_standing.specs.Standing.{AreStandings, IsBanned};
ghost use Rattle.flow_standing.specs.declared.standing.Standing.TheVariants.{Banned};
ghost use Rattle.flow_reason.specs.GivenUp.{IsBannedLeaf, IsGivenUp, IsNotGivenUp};

use crate::compiled::compiled_again;
use crate::facts::leaves;
use flow_core::Core;
use flow_plan::Compiled;
use flow_reach::may_still_come;
use flow_standing::{Standing, standings};
use std::alloc::{AllocError, Global};

/// Whether the run stands so at a leaf that it is banned.
fn is_of_ban(standing: Standing) -> bool
    ensures { IsTrue result ↔ (standing ≡ Banned) }
{
    matches!(standing, Standing::Banned)
}

/// Whether the leaf is banned, by a failure or a step back.
fn is_banned(core: &Core, stand: &[Standing], leaf: u32) -> bool
    requires standings { AreStandings core.now stand.now }
    requires leaf { leaf < length (schema core.now).labels }
    ensures { IsTrue result ↔ IsBanned core.now leaf }
{
    // the history is legal
    let _ = core.history();
    is_of_ban(stand[leaf as usize])
}

/// The leaves that are banned, rising.
fn banned_leaves(alloc: Global, core: &Core) -> Result<Vec<u32>, AllocError>
    ensures { IfOk result (λ banned. AreJust (IsBannedLeaf core.now) banned.items) }
{
    let stand = standings(alloc, core)?;
    let mut banned = Vec::new(alloc);
    for leaf in 0..leaves(core) {
        if is_banned(core, &stand, leaf) {
            banned.push(leaf)?;
        }
    }
    Ok(banned)
}

/// Whether the leaf was given up, by what the workflow is compiled to.
fn is_lost(
    alloc: Global,
    core: &Core,
    compiled: &Compiled,
    banned: &[u32],
    leaf: u32,
) -> Result<bool, AllocError>
    requires compiled { IsCompiled (schema core.now) compiled.now }
    requires banned { AreJust (IsBannedLeaf core.now) banned.now }
    ensures { IfOk result (λ is. IsTrue is ↔ IsGivenUp core.now leaf) }
{
    // what the workflow keeps of its goal
    let _ = core.workflow().tree();
    if may_still_come(alloc, compiled, core.journal(), banned, leaf)? {
        return Ok(false);
    }
    may_still_come(alloc, compiled, core.journal(), &[], leaf)
}

/// Whether the leaf was given up. Where nothing is banned, no leaf was.
pub(crate) fn is_given_up(alloc: Global, core: &Core, leaf: u32) -> Result<bool, AllocError>
    ensures is { IfOk result (λ is. IsTrue is → IsGivenUp core.now leaf) }
    ensures is_not { IfOk result (λ is. is ≡ false → IsNotGivenUp core.now leaf) }
{
    // what the workflow keeps of its goal
    let _ = core.workflow().tree();
    let banned = banned_leaves(alloc, core)?;
    if banned.is_empty() {
        return Ok(false);
    }
    let Some(compiled) = compiled_again(alloc, core)? else {
        return Ok(false);
    };
    let is = is_lost(alloc, core, &compiled, &banned, leaf);
    drop(compiled);
    is
}
