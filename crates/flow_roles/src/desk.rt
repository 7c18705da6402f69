ghost use Rattle.std.specs.Prelude.{◌≡◌, [], ◌∷◌, ℕ, List};
ghost use Rattle.flow_form.specs.Script.{Said};
ghost use Rattle.flow_policy.specs.Policy.{IsPolicyOf};
ghost use Rattle.flow_form.specs.Names.{event_names};
ghost use Rattle.flow_roles.specs.Desked.{Desked};

use flow_core::{CommitRefusal, Core, DoRefusal, RewindRefusal};
use flow_policy::Policy;
use std::marker::Model;

/// A run whose tasks are taken by the users of a policy. Callers of a run go by numbers: they are those of the users, and 0 is none's.
/// It has nothing besides the two, and takes no memory.
#[derive(Drop)]
pub struct Desk {
    pub(crate) core: Core,
    pub(crate) policy: Policy,
}

impl Model for Desk {
    ghost use Rattle.flow_roles.specs.Desked.{Desked, desked_code};

    ghost Value = { Desked };

    ghost coded = { desked_code };

    ghost use Rattle.flow_roles.specs.Invariant.{desked_by, IsAttended};

    ghost view = { desked_by };

    ghost invariant = { IsAttended };
}

impl Desk {
    ghost use Rattle.flow_roles.specs.Desked.{KeepsDuties};
    ghost use Rattle.flow_roles.specs.Answers.{DeskPerforms, DeskRewinds, DeskCommits};

    /// The desk of a run that has no entry yet. The policy is of a script that declares the events of the run's workflow.
    pub fn new(core: Core, policy: Policy) -> Desk
        requires empty { core.history ≡ [] }
        requires same_events { (text : List ℕ) × (s : Said) × IsPolicyOf text s policy × (event_names s.decls ≡ core.definition.events) }
        ensures { result ≡ record { run = core; assigned = policy } }
    {
        Desk { core, policy }
    }

    /// Does a leaf that is no event. Anyone may.
    pub fn perform(&mut self, leaf: u32, by: u32) -> Result<(), DoRefusal>
        ensures { DeskPerforms self.old leaf by result self.new }
    {
        self.core.perform(leaf, by)
    }

    /// Goes back to the last place at which another choice is still free. Anyone may.
    pub fn rewind(&mut self, by: u32) -> Result<u32, RewindRefusal>
        ensures { DeskRewinds self.old by result self.new }
    {
        self.core.rewind(by)
    }

    /// Ends the run: its journal is a whole execution. Anyone may.
    pub fn commit(&mut self, by: u32) -> Result<(), CommitRefusal>
        ensures { DeskCommits self.old by result self.new }
    {
        self.core.commit(by)
    }

    /// Finds at once what can be taken or done, so that questions about this state cost little. Nothing else changes.
    pub fn look_ahead(&mut self)
        ensures { self.new ≡ self.old }
    {
        self.core.look_ahead();
    }

    /// The run. Duties hold after every step of it.
    pub fn core(&self) -> &Core
        ensures run { result.now ≡ self.now.run }
        ensures kept { KeepsDuties self.now }
    {
        // brings what the run keeps: its history is legal, and its workflow well-formed
        let _ = self.core.history();
        let _ = self.core.workflow().tree();
        &self.core
    }

    /// The policy under which tasks are taken.
    pub fn policy(&self) -> &Policy
        ensures { result.now ≡ self.now.assigned }
    {
        &self.policy
    }
}
