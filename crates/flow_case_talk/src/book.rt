ghost use Rattle.std.specs.Prelude.{◌≡◌, ◌↔◌, Bool, IsTrue, IfOk};
ghost use Rattle.flow_case.specs.CaseRun.{run_of};
ghost use Rattle.flow_case_talk.specs.Means.{KeptCase, IsAnswered, AreStepsTo, AreTidySteps, MayStepBack};

use flow_ask::{Answer, Ask, Refusal};
use flow_core::Core;
use flow_policy::Policy;
use std::alloc::{AllocError, Global};

/// Who says a line, and when.
#[derive(Clone, Copy)]
pub struct Speaker<'a> {
    /// The number of the user; 0 where the case knows no such user.
    pub number: u32,
    pub name: &'a str,
    /// When, as it is told.
    pub at: &'a str,
    /// Empty where there is none.
    pub note: &'a str,
}

/// Who made an entry, and when.
#[derive(Clone, Copy)]
pub struct Told<'a> {
    pub at: &'a str,
    pub by: &'a str,
    pub note: &'a str,
}

/// A case that is talked to.
pub trait Book {
    // The case, and whether a step of it could not be kept.
    ghost kept_case: { Self → KeptCase };

    // Each `done` is followed by the updates that close off no choice.
    ghost tidied: { Self → Bool };

    /// Where it is, as a key of its tasks begins.
    fn path(&self) -> &str;

    /// Its run.
    fn core(&self) -> &Core
        ensures { result.now ≡ run_of (kept_case self.now).run };

    /// The text of its workflow.
    fn workflow_text(&self) -> &[u8];

    /// Who may take what, where the case has a policy.
    fn policy(&self) -> Option<&Policy>;

    /// The text of its policy.
    fn policy_text(&self) -> Option<&[u8]>;

    /// How many users the case knows, from 1 on.
    fn users(&self) -> u32;

    /// The name of a user.
    fn user_name(&self, number: u32) -> &str;

    /// Whether no step back goes over a done leaf of the event.
    fn is_final(&self, event: u32) -> bool;

    /// Whether the policy lets the user step back.
    fn may_step_back(&self, user: u32) -> bool
        ensures { IsTrue result ↔ MayStepBack (kept_case self.now).run user };

    /// Whether each `done` is followed by the updates that close off no choice.
    fn is_tidied(&self) -> bool
        ensures { result ≡ tidied self.now };

    /// Who made the entry at the place of the history.
    fn told(&self, place: usize) -> Option<Told<'_>>;

    /// Finds at once what can be taken or done.
    fn look_ahead(&mut self)
        ensures { kept_case self.new ≡ kept_case self.old };

    /// The tests and updates that are to be done before a claim on the leaf is given. Nothing is done.
    fn steps_to_take(&mut self, alloc: Global, leaf: u32, by: u32) -> Result<Vec<u32>, AllocError>
        ensures case { kept_case self.new ≡ kept_case self.old }
        ensures steps { IfOk result (λ steps. AreStepsTo by (kept_case self.old).run leaf steps.items) };

    /// The updates that close off no choice, one after another. Nothing is done.
    fn tidy_steps(&mut self, alloc: Global, by: u32) -> Result<Vec<u32>, AllocError>
        ensures case { kept_case self.new ≡ kept_case self.old }
        ensures steps { IfOk result (λ leaves. AreTidySteps by (kept_case self.old).run leaves.items) };

    /// Whether the task that the entry at the place did is ticked off: it was taken back, and is undone outside.
    fn is_ticked_off(&self, done: usize) -> bool;

    /// Ticks off the task that the entry at the place did. This is kept before it is answered.
    fn tick_off(&mut self, task: &str, done: usize, speaker: Speaker<'_>) -> Result<(), Refusal>
        ensures { (kept_case self.new).run ≡ (kept_case self.old).run };

    /// Asks one thing. What came of it is kept before it is answered.
    fn ask(&mut self, ask: Ask, speaker: Speaker<'_>) -> Answer
        ensures { IsAnswered (kept_case self.old) ask speaker.entry.number result (kept_case self.new) };
}
