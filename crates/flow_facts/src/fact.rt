ghost use Rattle.std.specs.Prelude.{◌≡◌, IfOk};

use crate::constant::Const;
use crate::name::Name;
use std::alloc::{AllocError, Global};
use std::hash::{Hash, Hasher};
use std::marker::Model;

/// A ground fact: a relation of constants.
#[derive(Drop)]
pub struct Fact {
    relation: Name,
    args: Vec<Const>,
}

impl Model for Fact {
    ghost use Rattle.flow_facts.specs.Atom.{Atom, atom_code, atom};

    ghost Value = { Atom };

    ghost coded = { atom_code };

    ghost view = { λ f. atom f.relation f.args.items };
}

impl Fact {
    /// The relation of these arguments.
    pub fn new(relation: Name, args: Vec<Const>) -> Fact
        ensures relation { result.relation ≡ relation }
        ensures args { result.args ≡ args.items }
    {
        Fact { relation, args }
    }

    /// The same fact in memory of its own.
    pub fn copy(&self, alloc: Global) -> Result<Fact, AllocError>
        ensures { IfOk result (λ fact. fact ≡ self.now) }
    {
        let mut args = Vec::with_capacity(alloc, self.args.len())?;
        for arg in &self.args {
            args.push(arg.copy(alloc)?)?;
        }
        let relation = self.relation.copy(alloc)?;
        Ok(Fact { relation, args })
    }

    /// The name of the relation.
    pub fn relation(&self) -> &Name
        ensures { result.now ≡ self.now.relation }
    {
        &self.relation
    }

    /// The constants that the relation is said of, in order.
    pub fn args(&self) -> &[Const]
        ensures { result.now ≡ self.now.args }
    {
        &self.args
    }
}

impl PartialEq for Fact {
    ghost use Rattle.flow_facts.specs.Atom.{atom_eq};
    ghost use Rattle.flow_facts.specs.Same.{atom_partial_equiv};

    ghost eq = { atom_eq };

    ghost laws = { atom_partial_equiv };

    fn eq(&self, other: &Fact) -> bool {
        self.relation() == other.relation() && self.args() == other.args()
    }
}

impl Eq for Fact {
    ghost use Rattle.flow_facts.specs.Same.{atom_equiv};

    ghost laws = { atom_equiv };
}

impl Hash for Fact {
    ghost use Rattle.flow_facts.specs.Hashed.{atom_input, atoms_alike};

    ghost hash_input = { atom_input };

    ghost respects_eq = { atoms_alike.fed };

    fn hash<H: Hasher>(&self, state: &mut H) {
        self.relation().hash(state);
        Const::hash_slice(self.args(), state);
    }
}
