ghost use Rattle.std.specs.Prelude.{◌≡◌, ◌↔◌, length, IsNone, IfSome, slice_get, option_copied};
ghost use Rattle.flow_model.specs.Lists.{◌∈◌, AreDistinct};

use crate::numbered::Numbered;
use flow_facts::Fact;
use std::marker::Model;

/// The facts of a workflow, by their numbers.
#[derive(Drop)]
pub struct FactTable {
    facts: Numbered<Fact>,
}

impl Model for FactTable {
    ghost use Rattle.std.specs.Prelude.{List};
    ghost use Rattle.std.specs.Coded.{coded_list};
    ghost use Rattle.flow_facts.specs.Atom.{Atom, atom_code};

    ghost Value = { List Atom };

    ghost coded = { coded_list atom_code };

    ghost view = { λ t. t.facts };
}

impl FactTable {
    /// The table of these facts, with the numbers that they have.
    pub fn new(facts: Numbered<Fact>) -> FactTable
        ensures { result ≡ facts }
    {
        FactTable { facts }
    }

    /// The number of a fact.
    pub fn number_of(&self, fact: &Fact) -> Option<u32>
        ensures none { IsNone result ↔ ¬ (fact.now ∈ self.now) }
        ensures found { IfSome result (λ n. slice_get self.now n ≡ Some fact.now) }
    {
        self.facts.number_of(fact)
    }

    /// The fact of a number. `None` where there are not so many.
    pub fn fact(&self, number: u32) -> Option<&Fact>
        ensures { option_copied result ≡ slice_get self.now number }
    {
        self.facts.as_slice().get(number as usize)
    }

    /// How many facts there are.
    pub fn count(&self) -> u32
        ensures count { result ≡ length self.now }
        ensures distinct { AreDistinct self.now }
    {
        self.facts.as_slice().len() as u32
    }
}
