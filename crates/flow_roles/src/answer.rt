ghost use Rattle.std.specs.Prelude.{◌≡◌, ◌↔◌, ◌++◌, false, IsTrue, OnOk, IfErr};
ghost use Rattle.flow_core.specs.Run.{with_entry};

use crate::desk::Desk;
use flow_ask::{Answer, Ask, Made};
use flow_core::{Asked, Core};
use flow_model::{Entry, Step};

impl Desk {
    ghost use Rattle.flow_roles.specs.Ask.{DeskAnswers, IsLeftFor, CanMakeAt, IsFirstUnmade};

    /// Asks the desk one thing. The other calls that make entries are this one, each with refusals of its own.
    pub fn answer(&mut self, ask: Ask, by: u32) -> Answer
        ensures { DeskAnswers self.old ask by result self.new }
    {
        Ok(match ask {
            Ask::Take(leaf) => Made::Claim(self.take(leaf, by)?),
            Ask::Do(leaf) => {
                self.perform(leaf, by)?;
                Made::Did
            }
            Ask::Done(claim) => {
                self.done(claim, by)?;
                Made::Done
            }
            Ask::Fail(claim) => Made::Failed(self.fail(claim, by)?),
            Ask::Rewind => Made::Rewound(self.rewind(by)?),
            Ask::Commit => {
                self.commit(by)?;
                Made::Committed
            }
        })
    }

    /// Makes that very entry, with its caller, where it may be made next and duties leave it to him; else nothing changes. A loop of it
    /// over a history opens one that was kept.
    pub fn make(&mut self, entry: Entry) -> bool
        ensures made { IsTrue result → self.new.run ≡ with_entry self.old.run entry.by entry.step }
        ensures policy { self.new.assigned ≡ self.old.assigned }
        ensures kept { result ≡ false → self.new ≡ self.old }
        ensures allowed { IsTrue result ↔ CanMakeAt self.old entry }
    {
        self.is_left_for(entry) && self.core.make(entry)
    }

    /// Makes the entries, one after another, up to the first that may not be made, whose place is told.
    pub fn follow(&mut self, entries: &[Entry]) -> Result<(), usize>
        ensures ok { OnOk result (self.new.run ≡ record self.old.run { history = self.old.run.history ++ entries.now }) }
        ensures err { IfErr result (IsFirstUnmade self.old entries.now) }
        ensures policy { self.new.assigned ≡ self.old.assigned }
    {
        for (index, entry) in entries.iter().enumerate() {
            if !self.make(*entry) {
                return Err(index);
            }
        }
        Ok(())
    }

    /// Whether duties leave the entry to its caller: they do, where it gives no claim.
    fn is_left_for(&self, entry: Entry) -> bool
        ensures { IsTrue result ↔ IsLeftFor self.now entry.by entry.step }
    {
        let Step::Took { leaf, .. } = entry.step else {
            return true;
        };
        match self.core.workflow().tree().event(leaf) {
            Some(event) => self.denial(event, entry.by).is_none(),
            None => false,
        }
    }
}

impl Asked for Desk {
    ghost use Rattle.std.proofs.Common.{refl};
    ghost use Rattle.flow_roles.specs.Ask.{DeskAnswers};

    ghost run = { λ d. d.run };

    ghost can_be_asked = { λ _. Unit {0} };

    ghost answers = { DeskAnswers };

    ghost is_same = { λ one other. other ≡ one };

    ghost same_self = { λ _. refl };

    fn core(&self) -> &Core {
        Desk::core(self)
    }

    #[tactic(auto, using(crate::proofs::Growth::desk_grows))]
    fn answer(&mut self, ask: Ask, by: u32) -> Answer {
        Desk::answer(self, ask, by)
    }

    fn look_ahead(&mut self) {
        Desk::look_ahead(self);
    }
}
