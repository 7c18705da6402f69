ghost use Rattle.std.specs.Prelude.{◌≡◌, ◌↔◌, ◌+◌, ℕ, List, Some, map, fold, slice_get, IsTrue, IfOk, OnOk, IfErr};
ghost use Rattle.flow_model.specs.Lists.{◌∈◌, Each};
ghost use Rattle.flow_workflow.specs.Numbers.{event_number};
ghost use Rattle.flow_policy.specs.Mentions.{said_in};
ghost use Rattle.flow_policy.specs.Numbering.{IsEventTable, Names, AreTablesOf, IsMissing, IsListed, numbered, nothing_numbered, with_mention, IsNotListed, IsNumberRefusal};

use crate::event_table::EventTable;
use crate::mention::Mention;
use crate::refusal::PolicyRefusal;
use crate::staff::Staff;
use crate::stage::Stage;
use flow_facts::Name;
use flow_workflow::Numbered;
use std::alloc::Global;
use std::cmp::max;

/// Whether the name stands at that place.
fn stands_at(names: &[Name], place: u32, name: &[u8]) -> bool
    ensures { IsTrue result ↔ (slice_get names.now place ≡ Some name.now) }
{
    match names.get(place as usize) {
        Some(found) => found.bytes() == name,
        None => false,
    }
}

/// The number of the name in the table. It is looked up where it is not the one that is guessed.
fn number_in(
    alloc: Global,
    table: &Numbered<Name>,
    guess: u32,
    mention: Mention<'_>,
) -> Result<u32, PolicyRefusal>
    ensures ok { IfOk result (λ n. ((said_in mention.entry).name ∈ table.now) × (n ≡ event_number table.now (said_in mention.entry).name)) }
    ensures refused { IfErr result (λ refusal. IsMissing table.now (said_in mention.entry) refusal) }
{
    // no name stands twice in the table
    let names = table.as_slice();
    if stands_at(names, guess, mention.name) {
        return Ok(guess);
    }
    let name = Name::new(alloc, mention.name)?;
    match table.number_of(&name) {
        Some(number) => Ok(number),
        None => Err(PolicyRefusal::Unknown {
            place: mention.place,
        }),
    }
}

/// The number of the user, from 1.
fn user_number(
    alloc: Global,
    table: &Numbered<Name>,
    guess: u32,
    mention: Mention<'_>,
) -> Result<u32, PolicyRefusal>
    ensures ok { IfOk result (λ n. ((said_in mention.entry).name ∈ table.now) × (n ≡ event_number table.now (said_in mention.entry).name + 1)) }
    ensures refused { IfErr result (λ refusal. IsMissing table.now (said_in mention.entry) refusal) }
{
    match number_in(alloc, table, guess, mention)?.checked_add(1) {
        Some(number) => Ok(number),
        None => Err(PolicyRefusal::NoMemory),
    }
}

/// The number of the event of that name.
fn event_number(
    alloc: Global,
    table: &EventTable,
    mention: Mention<'_>,
) -> Result<u32, PolicyRefusal>
    ensures ok { (events : List (List ℕ)) → IsEventTable events table.now →
        IfOk result (λ n. ((said_in mention.entry).name ∈ events) × (n ≡ event_number events (said_in mention.entry).name)) }
    ensures refused { (events : List (List ℕ)) → IsEventTable events table.now →
        IfErr result (λ refusal. IsMissing events (said_in mention.entry) refusal) }
{
    let name = Name::new(alloc, mention.name)?;
    match table.number_of(&name) {
        Some(number) => Ok(number),
        None => Err(PolicyRefusal::Unknown {
            place: mention.place,
        }),
    }
}

/// What a policy assigns, by numbers, as its names are gone through.
#[derive(Drop)]
pub(crate) struct Draft {
    /// The last role that was named.
    pub(crate) role: u32,
    /// The last event that was named first of a pair.
    pub(crate) first: u32,
    /// How many users and how many roles were named. A name that stands for the first time has the next number.
    pub(crate) users: u32,
    pub(crate) roles: u32,
    /// Users with their roles.
    pub(crate) members: Vec<(u32, u32)>,
    /// Events with the roles that are allowed them.
    pub(crate) allowed: Vec<(u32, u32)>,
    pub(crate) separate: Vec<(u32, u32)>,
    pub(crate) bound: Vec<(u32, u32)>,
}

fn no_draft(alloc: Global) -> Draft
    ensures { numbered result ≡ nothing_numbered }
{
    Draft {
        role: 0,
        first: 0,
        users: 0,
        roles: 0,
        members: Vec::new(alloc),
        allowed: Vec::new(alloc),
        separate: Vec::new(alloc),
        bound: Vec::new(alloc),
    }
}

impl Draft {
    /// Goes through one name.
    fn note(
        &mut self,
        alloc: Global,
        staff: &Staff,
        events: &EventTable,
        mention: Mention<'_>,
    ) -> Result<(), PolicyRefusal>
        ensures listed { (names : Names) → AreTablesOf names staff.now events.now → OnOk result (IsListed names (said_in mention.entry)) }
        ensures numbered { (names : Names) → AreTablesOf names staff.now events.now →
            OnOk result (numbered self.new ≡ with_mention names (numbered self.old) (said_in mention.entry)) }
        ensures refused { (names : Names) → AreTablesOf names staff.now events.now →
            IfErr result (λ refusal. IsNotListed names (said_in mention.entry) refusal) }
    {
        match mention.stage {
            Stage::RoleNeeded | Stage::AllowedNeeded => {
                self.role = number_in(alloc, &staff.roles, self.roles, mention)?;
                self.roles = max(self.roles, self.role.saturating_add(1));
            }
            Stage::UserNeeded => {
                let user = user_number(alloc, &staff.users, self.users, mention)?;
                self.users = max(self.users, user);
                self.members.push((user, self.role))?;
            }
            Stage::EventNeeded => {
                let event = event_number(alloc, events, mention)?;
                self.allowed.push((event, self.role))?;
            }
            Stage::SeparateFirst | Stage::BindFirst => {
                self.first = event_number(alloc, events, mention)?;
            }
            Stage::SeparateSecond => {
                let second = event_number(alloc, events, mention)?;
                self.separate.push((self.first, second))?;
            }
            Stage::BindSecond => {
                let second = event_number(alloc, events, mention)?;
                self.bound.push((self.first, second))?;
            }
            _ => {}
        }
        Ok(())
    }

    /// What the names assign, or which of them is the first that is not known.
    pub(crate) fn of(
        alloc: Global,
        staff: &Staff,
        events: &EventTable,
        mentions: &[Mention<'_>],
    ) -> Result<Draft, PolicyRefusal>
        ensures listed { (names : Names) → AreTablesOf names staff.now events.now →
            IfOk result (λ draft. Each (IsListed names) (map said_in mentions.now)) }
        ensures numbered { (names : Names) → AreTablesOf names staff.now events.now →
            IfOk result (λ draft. numbered draft ≡ fold (with_mention names) nothing_numbered (map said_in mentions.now)) }
        ensures refused { (names : Names) → AreTablesOf names staff.now events.now →
            IfErr result (λ refusal. IsNumberRefusal names (map said_in mentions.now) refusal) }
    {
        let mut draft = no_draft(alloc);
        for mention in mentions {
            draft.note(alloc, staff, events, *mention)?;
        }
        Ok(draft)
    }
}
