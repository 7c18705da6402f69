ghost use Rattle.std.specs.Prelude.{◌↔◌, IsTrue};
ghost use Rattle.flow_case.specs.Rules.{IsMarked};

use std::marker::Model;

/// What the policy of a case says besides duties.
#[derive(Drop)]
pub struct CaseRules {
    /// For each event, whether it is final.
    pub(crate) finals: Vec<bool>,
    /// For each number of a user, from 0, whether the user may step back, and whether the user may end the run.
    pub(crate) back: Vec<bool>,
    pub(crate) close: Vec<bool>,
}

impl Model for CaseRules {
    ghost use Rattle.flow_case.specs.Rules.{Rules, rules_code};

    ghost Value = { Rules };

    ghost coded = { rules_code };

    ghost view = { λ r. record { finals = r.finals.items; back = r.back.items; close = r.close.items } };
}

/// Whether the number is marked.
fn is_marked(marks: &[bool], number: u32) -> bool
    ensures { IsTrue result ↔ IsMarked marks.now number }
{
    match marks.get(number as usize) {
        Some(mark) => *mark,
        None => false,
    }
}

impl CaseRules {
    /// Whether the event is final: once it is done, no step back goes over it.
    pub fn is_final(&self, event: u32) -> bool
        ensures { IsTrue result ↔ IsMarked self.now.finals event }
    {
        is_marked(&self.finals, event)
    }

    /// Whether the user may step back.
    pub fn may_step_back(&self, user: u32) -> bool
        ensures { IsTrue result ↔ IsMarked self.now.back user }
    {
        is_marked(&self.back, user)
    }

    /// Whether the user may end the run.
    pub fn may_close(&self, user: u32) -> bool
        ensures { IsTrue result ↔ IsMarked self.now.close user }
    {
        is_marked(&self.close, user)
    }
}
