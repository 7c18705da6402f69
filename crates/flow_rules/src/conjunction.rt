ghost use Rattle.std.specs.Prelude.{◌≡◌, ◌<◌, ℕ, Option, IfOk};
ghost use Rattle.flow_model.specs.Constraint.{all_of};
ghost use Rattle.flow_model.specs.Ways as model;

use crate::lanes::Lanes;
use crate::narrowed::{Narrowed, narrow_each};
use crate::normal::Nnf;
use crate::normal_form::normal_forms;
use flow_workflow::Rule;
use std::alloc::{AllocError, Global};

/// Rules that are all to be met.
#[derive(Drop)]
pub struct Conjunction {
    rules: Vec<Nnf>,
}

impl Conjunction {
    ghost use Rattle.flow_rules.specs.Conjunction.{HasWaysOf, normal_in};
    ghost use Rattle.flow_rules.specs.Lanes.{Shows};
    ghost use Rattle.flow_rules.specs.Narrowed.{ways_in};
    ghost use Rattle.flow_workflow.specs.Rule.{rules_of};

    /// All of the rules.
    pub fn new(alloc: Global, rules: &[Rule]) -> Result<Conjunction, AllocError>
        ensures { IfOk result (λ all. HasWaysOf (normal_in all) (all_of (rules_of rules.now))) }
    {
        let rules = normal_forms(alloc, rules, true)?;
        Ok(Conjunction { rules })
    }

    /// What the rules ask in each of 64 lanes. Each rule is walked so often for all of them, and not for
    /// each: this is what makes rules cheap that ask for nothing in most lanes.
    pub fn narrowed(&self, alloc: Global, lanes: &Lanes) -> Result<Narrowed, AllocError>
        ensures { IfOk result (λ narrowed. (lane : ℕ) (leaf : ℕ → Option ℕ) → lane < 64 → Shows lanes.now lane leaf →
            ways_in narrowed lane leaf ≡ model.ways (normal_in self.now) leaf) }
    {
        narrow_each(alloc, &self.rules, lanes)
    }
}
