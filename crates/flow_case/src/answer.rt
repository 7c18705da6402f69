ghost use Rattle.std.specs.Prelude.{◌≡◌, ◌↔◌, [], ◌∷◌, take, false, IsTrue, OnOk, IfErr};

use crate::case_run::CaseRun;
use flow_ask::{Answer, Ask};
use flow_core::{Asked, Core};
use flow_model::Entry;

impl CaseRun {
    ghost use Rattle.flow_case.specs.CaseRun.{run_of, KeepsCase, CaseAnswers, CanMakeInCase, case_with, IsFirstUnmade};

    /// The run. Under a policy duties hold after every step of it, and the rules of the case let each of its entries.
    pub fn core(&self) -> &Core
        ensures run { result.now ≡ run_of self.now }
        ensures kept { KeepsCase self.now }
    {
        match self {
            CaseRun::Free(core) => core,
            CaseRun::UnderPolicy(ruled) => ruled.core(),
        }
    }

    /// Finds at once what can be taken or done, so that questions about this state cost little. Nothing else changes.
    pub fn look_ahead(&mut self)
        ensures { self.new ≡ self.old }
    {
        match self {
            CaseRun::Free(core) => core.look_ahead(),
            CaseRun::UnderPolicy(ruled) => ruled.look_ahead(),
        }
    }

    /// Asks the case one thing.
    pub fn answer(&mut self, ask: Ask, by: u32) -> Answer
        ensures { CaseAnswers self.old ask by result self.new }
    {
        match self {
            CaseRun::Free(core) => core.answer(ask, by),
            CaseRun::UnderPolicy(ruled) => ruled.answer(ask, by),
        }
    }

    /// Makes that very entry, with its caller, where it may be made next, and duties and rules leave it to him; else nothing changes.
    pub fn make(&mut self, entry: Entry) -> bool
        ensures made { IsTrue result → self.new ≡ case_with self.old (entry ∷ []) }
        ensures kept { result ≡ false → self.new ≡ self.old }
        ensures allowed { IsTrue result ↔ CanMakeInCase self.old entry }
    {
        match self {
            CaseRun::Free(core) => core.make(entry),
            CaseRun::UnderPolicy(ruled) => ruled.make(entry),
        }
    }

    /// Makes the entries, one after another, up to the first that may not be made, whose place is told.
    #[tactic(auto, using(crate::proofs::Following::with_none, crate::proofs::Following::with_more, crate::proofs::Following::with_all))]
    pub fn follow(&mut self, entries: &[Entry]) -> Result<(), usize>
        ensures ok { OnOk result (self.new ≡ case_with self.old entries.now) }
        ensures err { IfErr result (IsFirstUnmade self.old entries.now) }
        ensures so_far { IfErr result (λ index. self.new ≡ case_with self.old (take index entries.now)) }
    {
        for (index, entry) in entries.iter().enumerate() {
            if !self.make(*entry) {
                return Err(index);
            }
        }
        Ok(())
    }
}

impl Asked for CaseRun {
    ghost use Rattle.std.proofs.Common.{refl};
    ghost use Rattle.flow_case.specs.CaseRun.{run_of, CaseAnswers};

    ghost run = { run_of };

    ghost can_be_asked = { λ _. Unit {0} };

    ghost answers = { CaseAnswers };

    ghost is_same = { λ one other. other ≡ one };

    ghost same_self = { λ _. refl };

    fn core(&self) -> &Core {
        CaseRun::core(self)
    }

    #[tactic(auto, using(crate::proofs::Growth::case_grows))]
    fn answer(&mut self, ask: Ask, by: u32) -> Answer {
        CaseRun::answer(self, ask, by)
    }

    fn look_ahead(&mut self) {
        CaseRun::look_ahead(self);
    }
}
