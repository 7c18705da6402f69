ghost use Rattle.std.specs.Prelude.{◌≡◌, IfOk};
ghost use Rattle.flow_workflow.specs.Rule.{rule_of, rules_of};

use std::alloc::{AllocError, Global};

/// A rule on the events of an execution (Davulcu, Kifer, Ramakrishnan and Ramakrishnan 1998).
/// Events go by their numbers.
#[derive(Drop)]
pub enum Rule {
    /// The event happens.
    Must(u32),
    /// The event does not happen.
    Never(u32),
    /// The events all happen, each before the next.
    Order(Vec<u32>),
    Not(Box<Rule>),
    And(Vec<Rule>),
    Or(Vec<Rule>),
}

impl Rule {
    /// The same rules in memory of their own.
    #[cycle(copying)]
    fn copy_each(alloc: Global, rules: &[Rule]) -> Result<Vec<Rule>, AllocError>
        ensures { IfOk result (λ copies. rules_of copies.items ≡ rules_of rules.now) }
    {
        let mut copies = Vec::new(alloc);
        for rule in rules {
            copies.push(rule.copy(alloc)?)?;
        }
        Ok(copies)
    }

    /// The same rule in memory of its own.
    #[cycle(copying)]
    pub fn copy(&self, alloc: Global) -> Result<Rule, AllocError>
        ensures { IfOk result (λ rule. rule_of rule ≡ rule_of self.now) }
    {
        match self {
            Rule::Must(event) => Ok(Rule::Must(*event)),
            Rule::Never(event) => Ok(Rule::Never(*event)),
            Rule::Order(events) => Ok(Rule::Order(Vec::from_slice(alloc, events)?)),
            Rule::Not(part) => Ok(Rule::Not(Box::new(alloc, part.copy(alloc)?)?)),
            Rule::And(parts) => Ok(Rule::And(Rule::copy_each(alloc, parts)?)),
            Rule::Or(parts) => Ok(Rule::Or(Rule::copy_each(alloc, parts)?)),
        }
    }
}
