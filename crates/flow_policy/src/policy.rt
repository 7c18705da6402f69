ghost use Rattle.std.specs.Prelude.{◌≡◌, ◌-◌, ◌<◌, ◌≤◌, ◌^◌, ◌↔◌, length, map, IsTrue, IfOk, IfErr, MatchOption, Some, slice_get};
ghost use Rattle.flow_model.specs.Lists.{◌∈◌, Each};
ghost use Rattle.flow_model.specs.Duties.{HasRole};
ghost use Rattle.flow_form.specs.Script.{Said, said};
ghost use Rattle.flow_form.specs.Names.{event_names};
ghost use Rattle.flow_lex.specs.Tokens.{AreSpans, IsSmall};
ghost use Rattle.flow_policy.specs.declared.refusal.PolicyRefusal.TheVariants.{NoMemory};
ghost use Rattle.flow_policy.specs.Texts.{IsCutInto};
ghost use Rattle.flow_policy.specs.Policy.{IsPolicyOf, IsPolicyRefusal};
ghost use Rattle.flow_policy.specs.Ties.{AreTies};
ghost use Rattle.flow_policy.specs.Mentions.{said_in};
ghost use Rattle.flow_policy.specs.Numbering.{numbered, IsNumberRefusal, names_of, IsAssignedBy, IsMentionedIn};

use crate::draft::Draft;
use crate::event_table::EventTable;
use crate::mention::{Mention, mentions_of};
use crate::refusal::PolicyRefusal;
use crate::role_table::RoleTable;
use crate::staff::Staff;
use crate::tie::Tie;
use crate::tie_table::TieTable;
use flow_facts::Name;
use flow_form::{Script, TextRefusal};
use flow_lex::{Token, lex};
use flow_workflow::Numbered;
use std::alloc::Global;
use std::marker::Model;

/// Who may take what: users with their roles, roles with the events that they are allowed, and pairs of events whose tasks are for
/// different users or for one.
#[derive(Drop)]
pub struct Policy {
    users: Numbered<Name>,
    /// Users with their roles.
    members: RoleTable,
    /// Events with the roles that are allowed them.
    allowed: RoleTable,
    separate: TieTable,
    bound: TieTable,
}

impl Model for Policy {
    ghost use Rattle.std.specs.Prelude.{map};
    ghost use Rattle.flow_policy.specs.Assigned.{Assigned, assigned_code};
    ghost use Rattle.flow_policy.specs.Policy.{turned};

    ghost Value = { Assigned };

    ghost coded = { assigned_code };

    ghost view = { λ p. record {
      users = p.users;
      duties = record { members = p.members; allowed = map turned p.allowed; separate = p.separate; bound = p.bound };
    } };
}

/// The tokens of the text.
fn tokens_of(alloc: Global, text: &[u8]) -> Result<Vec<Token>, PolicyRefusal>
    ensures cut { IfOk result (λ tokens. IsCutInto text.now tokens.items) }
    ensures spans { IfOk result (λ tokens. AreSpans 0 (length text.now) tokens.items) }
    ensures small { IfOk result (λ tokens. Each (IsSmall text.now) tokens.items) }
    ensures refused { (s : Said) → IfErr result (λ refusal. IsPolicyRefusal text.now s refusal) }
{
    match lex(alloc, text) {
        Ok(tokens) => Ok(tokens),
        Err(TextRefusal::NotAscii { place }) => Err(PolicyRefusal::NotAscii { place }),
        Err(TextRefusal::BadToken { place }) => Err(PolicyRefusal::BadToken { place }),
        Err(_) => Err(PolicyRefusal::NoMemory),
    }
}

/// The policy of what was numbered.
fn policy_with(alloc: Global, users: Numbered<Name>, draft: Draft) -> Result<Policy, PolicyRefusal>
    ensures ok { IfOk result (λ policy. IsAssignedBy users (numbered draft) policy) }
    ensures refused { IfErr result (λ refusal. refusal ≡ NoMemory) }
{
    let Draft {
        role: _,
        first: _,
        users: _,
        roles: _,
        members,
        allowed,
        separate,
        bound,
    } = draft;
    let separate = TieTable::new(alloc, separate)?;
    let bound = TieTable::new(alloc, bound)?;
    Ok(Policy {
        users,
        members: RoleTable::new(members),
        allowed: RoleTable::new(allowed),
        separate,
        bound,
    })
}

/// The policy of the names in a text.
fn policy_from(
    alloc: Global,
    text: &[u8],
    mentions: &[Mention<'_>],
    script: &Script,
) -> Result<Policy, PolicyRefusal>
    ensures ok { IfOk result (λ policy. IsMentionedIn (map said_in mentions.now) (event_names (said script.now).decls) policy) }
    ensures refused { IfErr result (λ refusal.
        IsNumberRefusal (names_of (map said_in mentions.now) (event_names (said script.now).decls)) (map said_in mentions.now) refusal) }
{
    let staff = Staff::of(alloc, text, mentions)?;
    let events = EventTable::of(alloc, &script.decls)?;
    let draft = Draft::of(alloc, &staff, &events, mentions)?;
    let Staff { users, roles } = staff;
    drop(roles);
    policy_with(alloc, users, draft)
}

/// The policy that a text says, to the script whose events it names. Statements come in any order, and add up.
pub fn policy_of(alloc: Global, text: &[u8], script: &Script) -> Result<Policy, PolicyRefusal>
    requires short { length text.now < 2 ^ 32 }
    ensures ok { IfOk result (λ policy. IsPolicyOf text.now (said script.now) policy) }
    ensures refused { IfErr result (λ refusal. IsPolicyRefusal text.now (said script.now) refusal) }
{
    let tokens = tokens_of(alloc, text)?;
    let mentions = mentions_of(alloc, text, &tokens)?;
    drop(tokens);
    policy_from(alloc, text, &mentions, script)
}

impl Policy {
    /// The number of the user, from 1.
    pub fn user(&self, name: &Name) -> Option<u32>
        ensures { MatchOption result (¬ (name.now ∈ self.now.users)) (λ user.
            (slice_get self.now.users (user - 1) ≡ Some name.now) × (1 ≤ user)) }
    {
        // there are fewer users than numbers
        let _names = self.users.as_slice();
        let place = self.users.number_of(name)?;
        Some(place + 1)
    }

    /// Whether some role of the user is allowed the event.
    pub fn has_role(&self, user: u32, event: u32) -> bool
        ensures { IsTrue result ↔ HasRole self.now.duties user event }
    {
        self.members.shares(user, &self.allowed, event)
    }

    /// The pairs with the event whose tasks are for different users. Of equal pairs the first alone is among them.
    pub fn separations(&self, event: u32) -> &[Tie]
        ensures { AreTies self.now.duties.separate event result.now }
    {
        self.separate.of_event(event)
    }

    /// The pairs with the event whose tasks are for one user. Of equal pairs the first alone is among them.
    pub fn bindings(&self, event: u32) -> &[Tie]
        ensures { AreTies self.now.duties.bound event result.now }
    {
        self.bound.of_event(event)
    }
}
