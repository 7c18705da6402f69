//! What a lock may keep, and what is done with it in a turn.
ghost use Rattle.std.specs.Prelude.{◌≡◌, ℕ, List, length};
ghost use Rattle.flow_turn.specs.Entries.{Grows};

/// A value with a list of entries, each of which names its caller, and with a part that stays as it is.
pub trait Kept: Drop {
    /// What the list has.
    type Entry;

    /// What contracts see of the part that stays. No value of this type is made.
    type Fixed;

    ghost entries: { Self → List Self.Entry };

    // The number of the caller that made the entry.
    ghost caller: { Self.Entry → ℕ };

    ghost fixed: { Self → Self.Fixed };

    /// How many entries the list has.
    fn count(&self) -> u64
        ensures { result ≡ length (entries self.now) };
}

/// What is done with the value in one turn.
pub trait Job<T: Kept> {
    type Answer;

    // What a run does: of the job, the value before, the caller, the answer and the value after.
    ghost does: { Self → T → ℕ → Self.Answer → T → Type 0 };

    /// Entries may be added to the end of the list, in the name of the caller `by`. All else of the list and the
    /// fixed part stay.
    fn run(self, value: &mut T, by: u32) -> Self::Answer
        ensures list { Grows T.caller by (T.entries value.old) (T.entries value.new) }
        ensures fixed { T.fixed value.new ≡ T.fixed value.old }
        ensures does { does self value.old by result value.new };
}
