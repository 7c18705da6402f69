ghost use Rattle.std.specs.Prelude.{◌≡◌, List, [], ◌∷◌, ◌++◌, map, IfOk, OnOk};
ghost use Rattle.flow_policy.specs.Stages.{Mentioned};
ghost use Rattle.flow_policy.specs.Mentions.{said_in};
ghost use Rattle.flow_policy.specs.Numbering.{IsStaff};

use crate::mention::Mention;
use crate::stage::Stage;
use flow_facts::{Name, TextKey};
use flow_workflow::Numbered;
use std::alloc::{AllocError, Global};
use std::hash::{DefaultHasher, Hasher};

/// The users of a policy, and the roles that it gives to users, in the order in which they are first named.
#[derive(Drop)]
pub(crate) struct Staff {
    pub(crate) users: Numbered<Name>,
    pub(crate) roles: Numbered<Name>,
}

/// The key of the tables of names that stand in the text.
fn key_of(text: &[u8]) -> TextKey {
    let mut read = DefaultHasher::new();
    read.write(text);
    TextKey::of(&read)
}

fn no_staff(alloc: Global, text: &[u8]) -> Staff
    ensures users { result.users ≡ [] }
    ensures roles { result.roles ≡ [] }
{
    let key = key_of(text);
    Staff {
        users: Numbered::new(alloc, key),
        roles: Numbered::new(alloc, key),
    }
}

impl Staff {
    /// Takes up a name, where it is that of a user or of a role that is given.
    fn add(&mut self, alloc: Global, mention: Mention<'_>) -> Result<(), AllocError>
        ensures { (so_far : List Mentioned) → IsStaff so_far self.old → OnOk result (IsStaff (so_far ++ said_in mention.entry ∷ []) self.new) }
    {
        match mention.stage {
            Stage::UserNeeded => {
                self.users.add(alloc, &Name::new(alloc, mention.name)?)?;
            }
            Stage::RoleNeeded => {
                self.roles.add(alloc, &Name::new(alloc, mention.name)?)?;
            }
            _ => {}
        }
        Ok(())
    }

    /// The users and roles among the names of the text.
    pub(crate) fn of(
        alloc: Global,
        text: &[u8],
        mentions: &[Mention<'_>],
    ) -> Result<Staff, AllocError>
        ensures { IfOk result (λ staff. IsStaff (map said_in mentions.now) staff) }
    {
        let mut staff = no_staff(alloc, text);
        for mention in mentions {
            staff.add(alloc, *mention)?;
        }
        Ok(staff)
    }
}
