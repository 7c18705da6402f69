ghost use Rattle.std.specs.Prelude.{◌≡◌, ◌<◌, ◌≤◌, ◌+◌, max, OnOk, IfErr};
ghost use Rattle.flow_workflow.specs.declared.refusal.ExpandRefusal.TheVariants as refusal;
ghost use Rattle.flow_expand.specs.Expansion.{capped};

use flow_workflow::{ExpandRefusal, Part};

/// How many leaves and nothings a goal has, and how many isolations. What would pass the greatest
/// number is capped at it.
#[derive(Clone, Copy)]
pub(crate) struct Size {
    pub(crate) ends: u64,
    pub(crate) isolations: u64,
}

impl Size {
    /// Of a leaf or of nothing.
    pub(crate) const END: Size = Size {
        ends: 1,
        isolations: 0,
    };

    /// Of two goals together.
    pub(crate) fn with(self, other: Size) -> Size
        ensures { result ≡ record { ends = capped (self.ends + other.ends); isolations = capped (self.isolations + other.isolations) } }
    {
        Size {
            ends: self.ends.saturating_add(other.ends),
            isolations: self.isolations.saturating_add(other.isolations),
        }
    }

    /// Of the goal isolated.
    pub(crate) fn isolated(self) -> Size
        ensures { result ≡ record { ends = self.ends; isolations = capped (self.isolations + 1) } }
    {
        Size {
            ends: self.ends,
            isolations: self.isolations.saturating_add(1),
        }
    }

    /// The one or the other, whichever is more.
    pub(crate) fn most(self) -> u64
        ensures { result ≡ max self.ends self.isolations }
    {
        self.ends.max(self.isolations)
    }
}

/// Refuses more than so many of a part.
pub(crate) fn at_most(part: Part, count: u64, most: u64) -> Result<(), ExpandRefusal>
    ensures ok { OnOk result (count ≤ most) }
    ensures refused { IfErr result (λ e. (most < count) × (e ≡ refusal.TooLarge part count)) }
{
    if count > most {
        return Err(ExpandRefusal::TooLarge { part, count });
    }
    Ok(())
}
