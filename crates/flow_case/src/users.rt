ghost use Rattle.std.specs.Prelude.{◌≡◌, ◌++◌, ◌∷◌, [], ℕ, List, map, length, IfOk, OnOk, MatchOption};
ghost use Rattle.flow_model.specs.Lists.{◌∈◌, AreDistinct};
ghost use Rattle.flow_case.specs.Members.{said};
ghost use Rattle.flow_case.specs.RulesOf.{IsUser, users_in};

use crate::members::Member;
use flow_facts::{Name, TextKey};
use flow_workflow::Numbered;
use std::alloc::{AllocError, Global};
use std::hash::{DefaultHasher, Hasher};
use std::marker::Model;

/// The users of a policy, by their numbers, which begin at 1.
#[derive(Drop)]
pub struct Users {
    names: Numbered<Name>,
}

impl Model for Users {
    ghost use Rattle.std.specs.Prelude.{List, ℕ};

    ghost Value = { List (List ℕ) };

    ghost view = { λ u. u.names };
}

/// The key of the tables of names that stand in the text.
pub(crate) fn key_of(text: &[u8]) -> TextKey {
    let mut read = DefaultHasher::new();
    read.write(text);
    TextKey::of(&read)
}

impl Users {
    /// Takes up the user.
    #[tactic(auto, using(crate::proofs::NameSteps::user_added))]
    fn add(&mut self, alloc: Global, member: Member<'_>) -> Result<(), AllocError>
        ensures { (so_far : List (List ℕ × List ℕ)) → self.old ≡ users_in so_far → OnOk result (self.new ≡ users_in (so_far ++ said member.entry ∷ [])) }
    {
        self.names.add(alloc, &Name::new(alloc, member.user)?)?;
        Ok(())
    }

    /// The users, in the order in which they are first named.
    pub(crate) fn of(
        alloc: Global,
        text: &[u8],
        members: &[Member<'_>],
    ) -> Result<Users, AllocError>
        ensures { IfOk result (λ users. users ≡ users_in (map said members.now)) }
    {
        let mut users = Users {
            names: Numbered::new(alloc, key_of(text)),
        };
        for member in members {
            users.add(alloc, *member)?;
        }
        Ok(users)
    }

    /// The number of the user.
    pub fn number_of(&self, name: &Name) -> Option<u32>
        ensures number { MatchOption result (¬ (name.now ∈ self.now)) (λ number. IsUser self.now number name.now) }
        ensures distinct { AreDistinct self.now }
    {
        // there are fewer users than numbers
        let _names = self.names.as_slice();
        let place = self.names.number_of(name)?;
        Some(place + 1)
    }

    /// The name of the user with that number.
    pub fn name_of(&self, number: u32) -> Option<&Name>
        ensures { MatchOption result ((name : List ℕ) → ¬ (IsUser self.now number name)) (λ name. IsUser self.now number name.now) }
    {
        if number == 0 {
            return None;
        }
        self.names.as_slice().get(number as usize - 1)
    }

    /// How many users there are. The last has that number.
    pub fn count(&self) -> u32
        ensures { result ≡ length self.now }
    {
        self.names.count()
    }
}
