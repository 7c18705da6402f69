//! A run, or a desk over one, that goes on from a history that its caller kept.
ghost use Rattle.std.specs.Prelude.{◌≡◌, ◌↔◌, ◌≤◌, ◌-◌, ◌/◌, length, false, IsTrue, IfErr, OnOk};
ghost use Rattle.flow_model.specs.declared.history.Entry.{Entry};
ghost use Rattle.flow_core.specs.Run.{with_entry};
ghost use Rattle.flow_step.specs.Following.{IsFollowed, IsIllegalAt};

use crate::record::{RECORD, split_record};
use flow_core::{Asked, Core};
use flow_model::Entry;
use flow_roles::Desk;

/// What can be asked, and made again entry by entry.
pub(crate) trait Remade: Asked {
    // The entry may be made next.
    ghost may_make: { Self → Entry → Type 0 };

    // It has that entry more.
    ghost grown: { Self → Entry → Self };

    /// Makes that very entry where it may be made next; else nothing changes.
    fn make(&mut self, entry: Entry) -> bool
        ensures made { IsTrue result → self.new ≡ grown self.old entry }
        ensures kept { result ≡ false → self.new ≡ self.old }
        ensures allowed { IsTrue result ↔ may_make self.old entry };

    // Its run has that entry more.
    ghost run_grows: { (one : Self) (entry : Entry) → Self.run (grown one entry) ≡ with_entry (Self.run one) entry.by entry.step };

    // It can be asked as before.
    ghost still_asked: { (one : Self) (entry : Entry) → Self.can_be_asked one → Self.can_be_asked (grown one entry) };
}

impl Remade for Core {
    ghost use Rattle.std.proofs.Common.{refl};
    ghost use Rattle.flow_step.specs.Following.{run_may, run_grown};

    ghost may_make = { run_may };

    ghost grown = { run_grown };

    ghost run_grows = { λ _ _. refl };

    ghost still_asked = { λ _ _ yes. yes };

    fn make(&mut self, entry: Entry) -> bool {
        Core::make(self, entry)
    }
}

impl Remade for Desk {
    ghost use Rattle.std.proofs.Common.{refl};
    ghost use Rattle.flow_roles.specs.Ask.{CanMakeAt};
    ghost use Rattle.flow_step.specs.Following.{desk_grown};

    ghost may_make = { CanMakeAt };

    ghost grown = { desk_grown };

    ghost run_grows = { λ _ _. refl };

    ghost still_asked = { λ _ _ yes. yes };

    fn make(&mut self, entry: Entry) -> bool {
        Desk::make(self, entry)
    }
}

/// The number of the record that begins where these bytes are left of a history.
fn number_of(history: &[u8], rest: &[u8]) -> usize
    requires { length rest.now ≤ length history.now }
    ensures { result ≡ (length history.now - length rest.now) / 16 }
{
    (history.len() - rest.len()) / RECORD
}

/// Makes the entries that the records tell, one after another. Where one may not be made, or a record tells none, its number is told.
pub(crate) fn follow<R: Remade>(run: &mut R, history: &[u8]) -> Result<(), usize>
    ensures followed { OnOk result (IsFollowed R.may_make R.grown run.old history.now run.new) }
    ensures illegal { IfErr result (IsIllegalAt R.may_make R.grown run.old history.now) }
    ensures lasts { R.can_be_asked run.old → R.can_be_asked run.new }
{
    let mut rest = history;
    while !rest.is_empty() {
        let Some((entry, more)) = split_record(rest) else {
            return Err(number_of(history, rest));
        };
        if !run.make(entry) {
            return Err(number_of(history, rest));
        }
        rest = more;
    }
    Ok(())
}
