ghost use Rattle.std.specs.Prelude.{◌≡◌, ◌==◌, ◌||◌, ◌↔◌, ◌⊎◌, ◌++◌, ◌∷◌, [], ℕ, List, false, get_or, slice_get, Some, map, IsTrue, IfOk, OnOk};
ghost use Rattle.flow_case.specs.Givens.{said as given_said};
ghost use Rattle.flow_case.specs.Members.{said};
ghost use Rattle.flow_case.specs.Reading.{Given as GivenName};
ghost use Rattle.flow_case.specs.Rules.{IsMarked};
ghost use Rattle.flow_case.specs.RulesOf.{AreFinals, IsUser, IsGivenTo, HaveRight};

use crate::given::Given;
use crate::kind::Kind;
use crate::members::Member;
use crate::users::Users;
use flow_facts::Name;
use flow_workflow::{Numbered, Workflow};
use std::alloc::{AllocError, Global};

/// Marks the number. It takes memory in the measure of the greatest one.
fn mark(marks: &mut Vec<bool>, number: u32) -> Result<(), AllocError>
    ensures { OnOk result ((k : ℕ) → get_or marks.new.items k false ≡ (number == k || get_or marks.old.items k false)) }
{
    let place = number as usize;
    if marks.len() <= place {
        marks.resize(place + 1, false)?;
    }
    marks[place] = true;
    Ok(())
}

/// Marks the event of that name, if there is one.
#[tactic(auto, using(crate::proofs::MarkSteps::event_marked, crate::proofs::MarkSteps::no_event))]
fn mark_event(
    alloc: Global,
    marks: &mut Vec<bool>,
    name: &[u8],
    workflow: &Workflow,
) -> Result<(), AllocError>
    ensures { OnOk result ((event : ℕ) → IsMarked marks.new.items event ↔
        ((slice_get workflow.now.events event ≡ Some name.now) ⊎ IsMarked marks.old.items event)) }
{
    // no event stands twice
    let _ = workflow.events();
    if let Some(number) = workflow.event_number(&Name::new(alloc, name)?) {
        mark(marks, number)?;
    }
    Ok(())
}

/// Marks the event, if a `final` gives the name.
#[tactic(auto, using(crate::proofs::MarkSteps::final_marked, crate::proofs::MarkSteps::final_passed))]
fn mark_final(
    alloc: Global,
    marks: &mut Vec<bool>,
    given: Given<'_>,
    workflow: &Workflow,
) -> Result<(), AllocError>
    ensures { (so_far : List GivenName) → AreFinals workflow.now.events so_far marks.old.items →
        OnOk result (AreFinals workflow.now.events (so_far ++ given_said given.entry ∷ []) marks.new.items) }
{
    if Kind::Final.is(given.kind) {
        mark_event(alloc, marks, given.name, workflow)?;
    }
    Ok(())
}

/// The events that are named to be final.
#[tactic(auto, using(crate::proofs::MarkSteps::no_finals))]
pub(crate) fn finals_of(
    alloc: Global,
    given: &[Given<'_>],
    workflow: &Workflow,
) -> Result<Vec<bool>, AllocError>
    ensures { IfOk result (λ marks. AreFinals workflow.now.events (map given_said given.now) marks.items) }
{
    let mut marks = Vec::new(alloc);
    for name in given {
        mark_final(alloc, &mut marks, *name, workflow)?;
    }
    Ok(marks)
}

/// Marks the number of the user of that name, if there is one.
#[tactic(auto, using(crate::proofs::MarkSteps::user_marked, crate::proofs::MarkSteps::no_user))]
fn mark_user(
    alloc: Global,
    marks: &mut Vec<bool>,
    name: &[u8],
    users: &Users,
) -> Result<(), AllocError>
    ensures { OnOk result ((user : ℕ) → IsMarked marks.new.items user ↔ (IsUser users.now user name.now ⊎ IsMarked marks.old.items user)) }
{
    if let Some(number) = users.number_of(&Name::new(alloc, name)?) {
        mark(marks, number)?;
    }
    Ok(())
}

/// Whether a right is given to the role: to each role where none is named.
#[tactic(auto, using(crate::proofs::MarkSteps::to_all, crate::proofs::MarkSteps::to_named, crate::proofs::MarkSteps::to_none))]
fn is_given_to(alloc: Global, named: &Numbered<Name>, role: &[u8]) -> Result<bool, AllocError>
    ensures { IfOk result (λ given. IsTrue given ↔ IsGivenTo named.now role.now) }
{
    if named.count() == 0 {
        return Ok(true);
    }
    match named.number_of(&Name::new(alloc, role)?) {
        Some(_) => Ok(true),
        None => Ok(false),
    }
}

/// Marks the user, if the right is given to the role.
#[tactic(auto, using(crate::proofs::MarkSteps::right_marked, crate::proofs::MarkSteps::right_passed))]
fn mark_member(
    alloc: Global,
    marks: &mut Vec<bool>,
    named: &Numbered<Name>,
    member: Member<'_>,
    users: &Users,
) -> Result<(), AllocError>
    ensures { (so_far : List (List ℕ × List ℕ)) → HaveRight named.now users.now so_far marks.old.items →
        OnOk result (HaveRight named.now users.now (so_far ++ said member.entry ∷ []) marks.new.items) }
{
    if is_given_to(alloc, named, member.role)? {
        mark_user(alloc, marks, member.user, users)?;
    }
    Ok(())
}

/// The users with a role to which the right is given.
#[tactic(auto, using(crate::proofs::MarkSteps::no_rights))]
pub(crate) fn users_with(
    alloc: Global,
    named: &Numbered<Name>,
    members: &[Member<'_>],
    users: &Users,
) -> Result<Vec<bool>, AllocError>
    ensures { IfOk result (λ marks. HaveRight named.now users.now (map said members.now) marks.items) }
{
    let mut marks = Vec::new(alloc);
    for member in members {
        mark_member(alloc, &mut marks, named, *member, users)?;
    }
    Ok(marks)
}
