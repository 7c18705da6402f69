ghost use Rattle.std.specs.Prelude.{◌≡◌, IfOk};

use crate::name::Name;
use std::alloc::{AllocError, Global};
use std::hash::{Hash, Hasher};

/// An argument of a fact.
#[derive(Drop)]
pub enum Const {
    Word(Name),
    Number(u32),
}

impl Const {
    /// The same constant in memory of its own.
    pub fn copy(&self, alloc: Global) -> Result<Const, AllocError>
        ensures { IfOk result (λ constant. constant ≡ self.now) }
    {
        match self {
            Const::Word(word) => Ok(Const::Word(word.copy(alloc)?)),
            Const::Number(number) => Ok(Const::Number(*number)),
        }
    }
}

impl PartialEq for Const {
    ghost use Rattle.flow_facts.specs.Atom.{const_eq};
    ghost use Rattle.flow_facts.specs.Same.{const_partial_equiv};

    ghost eq = { const_eq };

    ghost laws = { const_partial_equiv };

    fn eq(&self, other: &Const) -> bool {
        match (self, other) {
            (Const::Word(one), Const::Word(two)) => one == two,
            (Const::Number(one), Const::Number(two)) => one == two,
            (Const::Word(_), Const::Number(_)) | (Const::Number(_), Const::Word(_)) => false,
        }
    }
}

impl Eq for Const {
    ghost use Rattle.flow_facts.specs.Same.{const_equiv};

    ghost laws = { const_equiv };
}

impl Hash for Const {
    ghost use Rattle.flow_facts.specs.Hashed.{const_input, constants_alike};

    ghost hash_input = { const_input };

    ghost respects_eq = { constants_alike.fed };

    // No byte of a name is as small as what is written before each constant, so neither is taken for the end of a name.
    fn hash<H: Hasher>(&self, state: &mut H) {
        match self {
            Const::Word(word) => {
                state.write_u8(0);
                word.hash(state);
            }
            Const::Number(number) => {
                state.write_u8(1);
                number.hash(state);
            }
        }
    }
}
