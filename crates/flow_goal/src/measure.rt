ghost use Rattle.std.specs.Prelude.{◌≡◌, ◌&&◌, ℕ, Bool, not};
ghost use Rattle.flow_model.specs.Process as process;
ghost use Rattle.flow_goal.specs.Measure.{both_of, choice_of, isolated_of, measure_of};

/// What is found of a goal to see whether its choices stay. Those of its parts are joined with no memory.
#[derive(Clone, Copy)]
pub struct Measure {
    /// Some leaf of it keeps the choices apart that it stands in.
    pub(crate) apart: bool,
    /// It may be executed with no block.
    pub(crate) empty: bool,
    pub(crate) choice_free: bool,
    /// Each choice in it stays, unless the goal stands in an isolated part.
    pub(crate) foldable: bool,
    /// How many resolutions it has, or the greatest `u64` where they are more.
    pub(crate) all: u64,
    /// How many they are where choices stay, or the greatest `u64`.
    pub(crate) folded: u64,
}

impl Measure {
    /// Of the goal with no leaf.
    pub fn of_nop() -> Measure
        ensures { (apart : ℕ → Bool) → result ≡ measure_of apart process.Empty }
    {
        Measure {
            apart: false,
            empty: true,
            choice_free: true,
            foldable: true,
            all: 1,
            folded: 1,
        }
    }

    /// Of a leaf, which keeps the choices apart that it stands in, or does not.
    pub fn of_leaf(apart: bool) -> Measure
        ensures { (test : ℕ → Bool) (leaf : ℕ) → apart ≡ test leaf → result ≡ measure_of test (process.Task leaf) }
    {
        Measure {
            apart,
            empty: false,
            choice_free: true,
            foldable: true,
            all: 1,
            folded: 1,
        }
    }

    /// Of two parts that both stay.
    pub fn both(self, other: Measure) -> Measure
        ensures { result ≡ both_of self other }
    {
        Measure {
            apart: self.apart || other.apart,
            empty: self.empty && other.empty,
            choice_free: self.choice_free && other.choice_free,
            foldable: self.foldable && other.foldable,
            all: self.all.saturating_mul(other.all),
            folded: self.folded.saturating_mul(other.folded),
        }
    }

    /// Of the choice of two goals.
    pub fn choice(self, other: Measure) -> Measure
        ensures { result ≡ choice_of self other }
    {
        let apart = self.apart || other.apart;
        let empty = self.empty || other.empty;
        let stays = !apart && !empty && (self.foldable && other.foldable);
        Measure {
            apart,
            empty,
            choice_free: false,
            foldable: stays,
            all: self.all.saturating_add(other.all),
            folded: if stays {
                1
            } else {
                self.folded.saturating_add(other.folded)
            },
        }
    }

    /// How many resolutions the goal has where choices stay, or the greatest `u64` where they are more.
    pub fn resolutions(self) -> u64
        ensures { result ≡ self.folded }
    {
        self.folded
    }

    /// Whether the choice with this measure stays, where it may stand in an isolated part.
    pub(crate) fn stays(self, isolated: bool) -> bool
        ensures { result ≡ (not isolated && self.foldable) }
    {
        !isolated && self.foldable
    }

    /// Of an isolated part.
    pub fn isolated(self) -> Measure
        ensures { result ≡ isolated_of self }
    {
        Measure {
            foldable: self.choice_free,
            folded: self.all,
            ..self
        }
    }
}
