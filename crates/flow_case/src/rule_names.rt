ghost use Rattle.std.specs.Prelude.{◌≡◌, ◌↔◌, ◌++◌, ◌∷◌, [], ℕ, List, map, IsTrue, IfOk, OnOk, IfErr};
ghost use Rattle.flow_model.specs.Lists.{◌∈◌, Each};
ghost use Rattle.flow_case.specs.Givens.{said as given_said, unknown_at, IsNameRefusal, IsNamesRefusal};
ghost use Rattle.flow_case.specs.Members.{said};
ghost use Rattle.flow_case.specs.Reading.{Given as GivenName};
ghost use Rattle.flow_case.specs.RulesOf.{IsNamed, IsKnownName, roles_in, named_in};

use crate::given::Given;
use crate::kind::Kind;
use crate::members::Member;
use crate::text_refusal::CasePolicyRefusal;
use crate::users::key_of;
use flow_facts::Name;
use flow_workflow::{Numbered, Workflow};
use std::alloc::{AllocError, Global};

/// Takes up the role.
#[tactic(auto, using(crate::proofs::NameSteps::role_added))]
fn add_role(names: &mut Numbered<Name>, alloc: Global, member: Member<'_>) -> Result<(), AllocError>
    ensures { (so_far : List (List ℕ × List ℕ)) → names.old ≡ roles_in so_far → OnOk result (names.new ≡ roles_in (so_far ++ said member.entry ∷ [])) }
{
    names.add(alloc, &Name::new(alloc, member.role)?)?;
    Ok(())
}

/// The roles that users have.
pub(crate) fn roles_of(
    alloc: Global,
    text: &[u8],
    members: &[Member<'_>],
) -> Result<Numbered<Name>, AllocError>
    ensures { IfOk result (λ roles. roles ≡ roles_in (map said members.now)) }
{
    let mut names = Numbered::new(alloc, key_of(text));
    for member in members {
        add_role(&mut names, alloc, *member)?;
    }
    Ok(names)
}

/// Takes up the name, if a statement of the kind gives it.
#[tactic(auto, using(crate::proofs::NameSteps::name_added, crate::proofs::NameSteps::name_passed))]
fn add_name(
    names: &mut Numbered<Name>,
    alloc: Global,
    kind: Kind,
    given: Given<'_>,
) -> Result<(), AllocError>
    ensures { (so_far : List GivenName) → names.old ≡ named_in kind so_far → OnOk result (names.new ≡ named_in kind (so_far ++ given_said given.entry ∷ [])) }
{
    if kind.is(given.kind) {
        names.add(alloc, &Name::new(alloc, given.name)?)?;
    }
    Ok(())
}

/// The names in the statements of the kind.
pub(crate) fn names_in(
    alloc: Global,
    text: &[u8],
    kind: Kind,
    given: &[Given<'_>],
) -> Result<Numbered<Name>, AllocError>
    ensures { IfOk result (λ names. names ≡ named_in kind (map given_said given.now)) }
{
    let mut names = Numbered::new(alloc, key_of(text));
    for name in given {
        add_name(&mut names, alloc, kind, *name)?;
    }
    Ok(names)
}

/// Whether the workflow has an event of that name.
#[tactic(auto, using(crate::proofs::NameSteps::place_of_member))]
fn has_event(workflow: &Workflow, name: &Name) -> bool
    ensures { IsTrue result ↔ name.now ∈ workflow.now.events }
{
    match workflow.event_number(name) {
        Some(_) => true,
        None => false,
    }
}

/// Whether the name is in the table.
#[tactic(auto, using(crate::proofs::NameSteps::place_of_member))]
pub(crate) fn has_name(names: &Numbered<Name>, name: &Name) -> bool
    ensures { IsTrue result ↔ name.now ∈ names.now }
{
    match names.number_of(name) {
        Some(_) => true,
        None => false,
    }
}

/// Whether the name is known: that of an event in a `final`, that of a role else.
fn is_known(kind: Kind, name: &Name, workflow: &Workflow, roles: &Numbered<Name>) -> bool
    ensures { IsTrue result ↔ IsNamed workflow.now.events roles.now kind name.now }
{
    match kind {
        Kind::Final => has_event(workflow, name),
        Kind::Back | Kind::Close => has_name(roles, name),
    }
}

/// The refusal of a name that is not known.
fn unknown(kind: Kind, place: usize) -> CasePolicyRefusal
    ensures { result ≡ unknown_at kind place }
{
    match kind {
        Kind::Final => CasePolicyRefusal::NoEvent { place },
        Kind::Back | Kind::Close => CasePolicyRefusal::NoRole { place },
    }
}

/// Whether the name is known; else it is refused.
#[tactic(auto, using(crate::proofs::NameSteps::refused_so))]
fn check_name(
    alloc: Global,
    given: Given<'_>,
    workflow: &Workflow,
    roles: &Numbered<Name>,
) -> Result<(), CasePolicyRefusal>
    ensures known { OnOk result (IsKnownName workflow.now.events roles.now (given_said given.entry)) }
    ensures refused { IfErr result (λ refusal. IsNameRefusal workflow.now.events roles.now (given_said given.entry) refusal) }
{
    let name = Name::new(alloc, given.name)?;
    if is_known(given.kind, &name, workflow, roles) {
        Ok(())
    } else {
        Err(unknown(given.kind, given.place))
    }
}

/// Whether each name is known.
pub(crate) fn check_names(
    alloc: Global,
    given: &[Given<'_>],
    workflow: &Workflow,
    roles: &Numbered<Name>,
) -> Result<(), CasePolicyRefusal>
    ensures known { OnOk result (Each (IsKnownName workflow.now.events roles.now) (map given_said given.now)) }
    ensures refused { IfErr result (λ refusal. IsNamesRefusal workflow.now.events roles.now (map given_said given.now) refusal) }
{
    for name in given {
        check_name(alloc, *name, workflow, roles)?;
    }
    Ok(())
}
