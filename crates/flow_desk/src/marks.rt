ghost use Rattle.std.specs.Prelude.{◌≡◌, map, IfOk};
ghost use Rattle.flow_desk.specs.Mark.{mark_of, AreMarks};

use flow_core::Core;
use flow_standing::{Standing, standings};
use flow_view::Mark;
use std::alloc::{AllocError, Global};

/// The marks of the leaves of a run.
pub(crate) fn marks_of(alloc: Global, core: &mut Core) -> Result<Vec<Mark>, AllocError>
    ensures marks { IfOk result (λ marks. AreMarks core.old marks.items) }
    ensures stays { core.new ≡ core.old }
{
    core.look_ahead();
    let standings = standings(alloc, core)?;
    marks_for(alloc, &standings)
}

/// The marks that show where a run stands at each leaf.
fn marks_for(alloc: Global, standings: &[Standing]) -> Result<Vec<Mark>, AllocError>
    ensures { IfOk result (λ marks. marks.items ≡ map mark_of standings.now) }
{
    standings
        .iter()
        .map(|standing| mark_of(*standing))
        .collect(alloc)
}

/// The mark that shows it.
fn mark_of(standing: Standing) -> Mark
    ensures { result ≡ mark_of standing }
{
    match standing {
        Standing::Done => Mark::Done,
        Standing::Claimed => Mark::Claimed,
        Standing::Next => Mark::Next,
        Standing::Banned => Mark::Banned,
        Standing::Failed => Mark::Failed,
        Standing::Plain => Mark::Plain,
    }
}
