//! What a caller shows the lock, and what it knows by it.
use crate::kept::Kept;
use crate::turn::Chair;
use std::marker::Model;

/// A caller's right to take turns at a lock. It may go to another thread. The first pass is the root, with the
/// number 0, and all others are split from it. A clause sees a pass as what its caller knows.
pub struct Pass<T: Kept> {
    pub(crate) seat: Chair<T>,
    pub(crate) number: u32,
    pub(crate) given: u32,
    pub(crate) outs: u64,
}

impl<T: Kept> Model for Pass<T> {
    ghost use Rattle.std.specs.Prelude.{◌≡◌, ◌≤◌};
    ghost use Rattle.flow_turn.specs.Passes.{Knowledge, known_of, IsAtRest, Counts};

    ghost Value = { Knowledge T.Entry T.Fixed };

    ghost view = { λ p. known_of p.seat };

    ghost invariant = { λ p. IsAtRest p.seat × Counts p.number p.given p.outs (known_of p.seat) };
}

impl<T: Kept> Pass<T> {
    ghost use Rattle.std.specs.Prelude.{◌≡◌};
    ghost use Rattle.flow_turn.specs.Passes.{IsAtRest, known_of};

    /// The number that the entries of this caller name.
    pub fn number(&self) -> u32
        ensures { result ≡ self.now.number }
    {
        self.number
    }

    pub(crate) fn into_seat(self) -> Chair<T>
        ensures rest { IsAtRest result }
        ensures known { known_of result ≡ self }
    {
        let Self {
            seat,
            number: _,
            given: _,
            outs: _,
        } = self;
        seat
    }
}

impl<T: Kept> Drop for Pass<T> {
    fn drop(self) {
        let Self {
            seat: _,
            number: _,
            given: _,
            outs: _,
        } = self;
    }
}
