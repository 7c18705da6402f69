ghost use Rattle.std.specs.Prelude.{◌≡◌, ℕ, length};
ghost use Rattle.flow_model.specs.Facts.{State, after};
ghost use Rattle.flow_facts.specs.Held.{is_held};

use crate::Database;
use flow_model::Label;

/// A label that was performed, and whether it changed what holds.
#[derive(Clone, Copy)]
pub(crate) struct Update {
    pub(crate) label: Label,
    pub(crate) changed: bool,
}

impl Update {
    ghost use Rattle.flow_facts.specs.Changes.{HasFactBelow, changes};

    /// Performs the label on the database.
    pub(crate) fn make(database: &mut Database, label: Label) -> Update
        requires { HasFactBelow (length database.old) label }
        ensures label { result.label ≡ label }
        ensures changed { result.changed ≡ changes (is_held database.old) label }
        ensures held { (n : ℕ) → is_held database.new n ≡ after (is_held database.old) label n }
        ensures count { length database.new ≡ length database.old }
    {
        let changed = match label {
            Label::Event(_) | Label::Test(_) | Label::Absent(_) => false,
            Label::Ins(fact) => database.insert(fact),
            Label::Del(fact) => database.delete(fact),
        };
        Update { label, changed }
    }

    /// Restores what held before the update.
    pub(crate) fn take_back(self, database: &mut Database)
        requires { HasFactBelow (length database.old) self.label }
        ensures held { (before : State) → self.changed ≡ changes before self.label
            → ((n : ℕ) → is_held database.old n ≡ after before self.label n)
            → (n : ℕ) → is_held database.new n ≡ before n }
        ensures count { length database.new ≡ length database.old }
    {
        if self.changed {
            match self.label {
                Label::Event(_) | Label::Test(_) | Label::Absent(_) => {}
                Label::Ins(fact) => database.restore(fact, false),
                Label::Del(fact) => database.restore(fact, true),
            }
        }
    }
}
