ghost use Rattle.std.specs.Prelude.{◌≡◌, ℕ, Result};
ghost use Rattle.flow_ask.specs.declared.ask.Ask.{Ask};
ghost use Rattle.flow_ask.specs.declared.made.Made.{Made};
ghost use Rattle.flow_ask.specs.declared.refusal.Refusal.{Refusal};
ghost use Rattle.flow_core.specs.Run.{Run};
ghost use Rattle.flow_core.specs.Ask.{GrowsAtMost};

use crate::run::Core;
use flow_ask::{Answer, Ask};

/// A run that is asked: a core, or what stands over one and refuses more.
pub trait Asked {
    // The run.
    ghost run: { Self → Run };

    // It can be asked once more: what keeps its entries can count one fault more.
    ghost can_be_asked: { Self → Type 0 };

    // It answers the caller's ask so, and is this afterwards.
    ghost answers: { Self → Ask → ℕ → Result Made Refusal → Self → Type 0 };

    // Nothing that its callers see has changed.
    ghost is_same: { Self → Self → Type 0 };

    /// The run.
    fn core(&self) -> &Core
        ensures { result.now ≡ run self.now };

    /// Asks one thing. Whatever is answered, the run stays or has one entry more.
    fn answer(&mut self, ask: Ask, by: u32) -> Answer
        requires { can_be_asked self.old }
        ensures answers { answers self.old ask by result self.new }
        ensures grows { GrowsAtMost (run self.old) ask by (run self.new) }
        ensures lasts { can_be_asked self.new };

    /// Finds at once what can be taken or done, so that the questions about this state cost little.
    fn look_ahead(&mut self)
        ensures same { is_same self.old self.new }
        ensures run { run self.new ≡ run self.old }
        ensures lasts { can_be_asked self.old → can_be_asked self.new };

    // What has not changed is the same.
    ghost same_self: { (one : Self) → is_same one one };
}

impl Asked for Core {
    ghost use Rattle.std.proofs.Common.{refl};
    ghost use Rattle.flow_core.specs.Ask.{Answers};

    ghost run = { λ r. r };

    ghost can_be_asked = { λ _. Unit {0} };

    ghost answers = { Answers };

    ghost is_same = { λ one other. other ≡ one };

    ghost same_self = { λ _. refl };

    fn core(&self) -> &Core {
        self
    }

    #[tactic(auto, using(crate::proofs::Growth::answers_grow))]
    fn answer(&mut self, ask: Ask, by: u32) -> Answer {
        Core::answer(self, ask, by)
    }

    fn look_ahead(&mut self) {
        Core::look_ahead(self);
    }
}
