ghost use Rattle.std.specs.Prelude.{◌≡◌, ◌<◌, ◌^◌, ◌↔◌, [], ℕ, List, length, map, None, Ok, IfOk, OnOk, IfErr, IsTrue};
ghost use Rattle.std.specs.List.{flat_map};
ghost use Rattle.flow_model.specs.Lists.{Each};
ghost use Rattle.flow_model.specs.Duties.{HasRole};
ghost use Rattle.flow_form.specs.Script.{Said, said};
ghost use Rattle.flow_form.specs.Names.{event_names};
ghost use Rattle.flow_lex.specs.Tokens.{lexed, IsAscii, AreSpans, IsSmall};
ghost use Rattle.flow_policy.specs.Statement.{Statement};
ghost use Rattle.flow_policy.specs.Texts.{SaysPolicy};
ghost use Rattle.flow_policy.specs.Policy.{IsPolicyOf, memberships, users_of};
ghost use Rattle.flow_case.specs.declared.case_run.CaseRun.TheVariants.{UnderPolicy};
ghost use Rattle.flow_case.specs.Givens.{said as given_said, IsNamesRefusal};
ghost use Rattle.flow_case.specs.Members.{said as member_said};
ghost use Rattle.flow_case.specs.RulesOf.{IsKnownName, HaveRight, named_in, AreRulesOf, roles_in};
ghost use Rattle.flow_case.specs.CasePolicy.{IsCasePolicyOf, IsCasePolicyRefusal, IsDutyRefusal, ArePeopleOf, IsPeopleRefusal};

use crate::case_run::CaseRun;
use crate::given::{Given, read_rules};
use crate::kind::Kind;
use crate::marks::{finals_of, users_with};
use crate::members::{Member, members_of};
use crate::rule_names::{check_names, names_in, roles_of};
use crate::ruled::RuledRun;
use crate::rules::CaseRules;
use crate::split::{rule_tokens, without};
use crate::text_refusal::CasePolicyRefusal;
use crate::users::Users;
use flow_core::Core;
use flow_form::{Script, TextRefusal};
use flow_lex::{Token, lex};
use flow_policy::{Policy, PolicyRefusal, policy_of};
use flow_workflow::Workflow;
use std::alloc::{AllocError, Global};
use std::marker::Model;

/// The policy of a case: who may take what, the rules besides, and the users by name.
#[derive(Drop)]
pub struct CasePolicy {
    policy: Policy,
    rules: CaseRules,
    users: Users,
}

impl Model for CasePolicy {
    ghost use Rattle.std.specs.Prelude.{◌≡◌};
    ghost use Rattle.flow_case.specs.CasePolicy.{CaseSaid, case_said_code};

    ghost Value = { CaseSaid };

    ghost coded = { case_said_code };

    ghost view = { λ p. record { assigned = p.policy; rules = p.rules } };

    ghost invariant = { λ p. p.users ≡ p.policy.users };
}

impl CasePolicy {
    /// The users by their numbers.
    pub fn users(&self) -> &Users
        ensures { result.now ≡ self.now.assigned.users }
    {
        &self.users
    }

    /// What the policy says besides duties.
    pub fn rules(&self) -> &CaseRules
        ensures { result.now ≡ self.now.rules }
    {
        &self.rules
    }

    /// Whether some role of the user is allowed the event.
    pub fn may_take(&self, user: u32, event: u32) -> bool
        ensures { IsTrue result ↔ HasRole self.now.assigned.duties user event }
    {
        self.policy.has_role(user, event)
    }

    /// The case of a run that has no entry yet, under the policy; and the users by their numbers. The policy is of a script that declares
    /// the events of the run's workflow.
    pub fn into_run(self, core: Core) -> (CaseRun, Users)
        requires empty { core.history ≡ [] }
        requires same_events { (text : List ℕ) × (s : Said) × IsCasePolicyOf text s core.definition.events self × (event_names s.decls ≡ core.definition.events) }
        ensures run { result.0 ≡ UnderPolicy (record { desk = record { run = core; assigned = self.assigned }; rules = self.rules }) }
        ensures users { result.1 ≡ self.assigned.users }
    {
        let CasePolicy {
            policy,
            rules,
            users,
        } = self;
        (
            CaseRun::UnderPolicy(RuledRun::new(core, policy, rules)),
            users,
        )
    }
}

/// The tokens of the text.
fn tokens_of(alloc: Global, text: &[u8]) -> Result<Vec<Token>, CasePolicyRefusal>
    ensures ascii { IfOk result (λ tokens. IsAscii text.now) }
    ensures tokens { IfOk result (λ tokens. lexed text.now ≡ record { tokens = tokens.items; bad = None }) }
    ensures spans { IfOk result (λ tokens. AreSpans 0 (length text.now) tokens.items) }
    ensures small { IfOk result (λ tokens. Each (IsSmall text.now) tokens.items) }
    ensures refused { (s : Said) (events : List (List ℕ)) → IfErr result (λ refusal. IsCasePolicyRefusal text.now s events refusal) }
{
    match lex(alloc, text) {
        Ok(tokens) => Ok(tokens),
        Err(TextRefusal::NotAscii { place }) => Err(CasePolicyRefusal::Policy(
            PolicyRefusal::NotAscii { place },
        )),
        Err(TextRefusal::BadToken { place }) => Err(CasePolicyRefusal::Policy(
            PolicyRefusal::BadToken { place },
        )),
        Err(_) => Err(CasePolicyRefusal::NoMemory),
    }
}

/// The users with their roles, of a text that is a policy.
#[tactic(auto, using(crate::proofs::MemberLemmas::members_said))]
fn members_in<'a>(alloc: Global, text: &'a [u8]) -> Result<Vec<Member<'a>>, AllocError>
    ensures { (statements : List Statement) → SaysPolicy text.now statements →
        IfOk result (λ members. map member_said members.items ≡ flat_map memberships statements) }
{
    // a policy has tokens
    let Ok(tokens) = lex(alloc, text) else {
        return Err(AllocError);
    };
    members_of(alloc, text, &tokens)
}

/// Whether each name in the rules is known.
fn check(
    alloc: Global,
    text: &[u8],
    given: &[Given<'_>],
    members: &[Member<'_>],
    workflow: &Workflow,
) -> Result<(), CasePolicyRefusal>
    ensures known { OnOk result (Each (IsKnownName workflow.now.events (roles_in (map member_said members.now))) (map given_said given.now)) }
    ensures refused { IfErr result (λ refusal. IsNamesRefusal workflow.now.events (roles_in (map member_said members.now)) (map given_said given.now) refusal) }
{
    let roles = roles_of(alloc, text, members)?;
    check_names(alloc, given, workflow, &roles)
}

/// The users who have a right, by the statements of its kind.
fn right_of(
    alloc: Global,
    text: &[u8],
    kind: Kind,
    given: &[Given<'_>],
    members: &[Member<'_>],
    users: &Users,
) -> Result<Vec<bool>, AllocError>
    ensures { IfOk result (λ marks. HaveRight (named_in kind (map given_said given.now)) users.now (map member_said members.now) marks.items) }
{
    let named = names_in(alloc, text, kind, given)?;
    users_with(alloc, &named, members, users)
}

/// The rules by numbers, where each name is known.
fn rules_of(
    alloc: Global,
    text: &[u8],
    given: &[Given<'_>],
    members: &[Member<'_>],
    users: &Users,
    workflow: &Workflow,
) -> Result<CaseRules, AllocError>
    requires known { Each (IsKnownName workflow.now.events (roles_in (map member_said members.now))) (map given_said given.now) }
    ensures { IfOk result (λ rules. AreRulesOf (map given_said given.now) (map member_said members.now) users.now workflow.now.events rules) }
{
    let finals = finals_of(alloc, given, workflow)?;
    let back = right_of(alloc, text, Kind::Back, given, members, users)?;
    let close = right_of(alloc, text, Kind::Close, given, members, users)?;
    Ok(CaseRules {
        finals,
        back,
        close,
    })
}

/// The users by their numbers, and the rules.
#[derive(Drop)]
struct People {
    users: Users,
    rules: CaseRules,
}

/// The users and the rules, of the names in the rules.
fn people_with(
    alloc: Global,
    text: &[u8],
    given: &[Given<'_>],
    workflow: &Workflow,
) -> Result<People, CasePolicyRefusal>
    ensures users { (statements : List Statement) → SaysPolicy text.now statements → IfOk result (λ p. p.users ≡ users_of statements) }
    ensures rules { (statements : List Statement) → SaysPolicy text.now statements →
        IfOk result (λ p. AreRulesOf (map given_said given.now) (flat_map memberships statements) p.users workflow.now.events p.rules) }
    ensures refused { (statements : List Statement) → SaysPolicy text.now statements →
        IfErr result (λ refusal. IsNamesRefusal workflow.now.events (roles_in (flat_map memberships statements)) (map given_said given.now) refusal) }
{
    let members = members_in(alloc, text)?;
    check(alloc, text, given, &members, workflow)?;
    let users = Users::of(alloc, text, &members)?;
    let rules = rules_of(alloc, text, given, &members, &users, workflow)?;
    Ok(People { users, rules })
}

/// The users and the rules, of the tokens of the rules in a text, and of the text without them.
#[tactic(auto, using(crate::proofs::CaseLemmas::people_unread, crate::proofs::CaseLemmas::people_unknown, crate::proofs::CaseLemmas::people_are))]
fn people_of(
    alloc: Global,
    text: &[u8],
    cut: &[Token],
    duties: &[u8],
    workflow: &Workflow,
) -> Result<People, CasePolicyRefusal>
    requires spans { AreSpans 0 (length text.now) cut.now }
    requires small { Each (IsSmall text.now) cut.now }
    ensures ok { (statements : List Statement) → SaysPolicy duties.now statements →
        IfOk result (λ p. ArePeopleOf text.now cut.now statements workflow.now.events p.users p.rules) }
    ensures refused { (statements : List Statement) → SaysPolicy duties.now statements →
        IfErr result (IsPeopleRefusal text.now cut.now statements workflow.now.events) }
{
    let given = read_rules(alloc, text, cut)?;
    people_with(alloc, duties, &given, workflow)
}

/// The policy of the text without its rules.
fn duties_of(alloc: Global, text: &[u8], script: &Script) -> Result<Policy, CasePolicyRefusal>
    requires short { length text.now < 2 ^ 32 }
    ensures ok { IfOk result (λ policy. IsPolicyOf text.now (said script.now) policy) }
    ensures refused { IfErr result (IsDutyRefusal text.now (said script.now)) }
{
    match policy_of(alloc, text, script) {
        Ok(policy) => Ok(policy),
        Err(refusal) => Err(CasePolicyRefusal::Policy(refusal)),
    }
}

/// The policy of a case that a text says: that of `policy_of`, and statements `final EVENT, ..;`, `back ROLE, ..;` and `close ROLE, ..;`.
/// The script declares the events of the workflow.
#[tactic(auto, using(crate::proofs::CaseLemmas::case_policy, crate::proofs::CaseLemmas::case_refusal, crate::proofs::CaseLemmas::duty_refusal))]
pub fn case_policy_of(
    alloc: Global,
    text: &[u8],
    script: &Script,
    workflow: &Workflow,
) -> Result<CasePolicy, CasePolicyRefusal>
    requires short { length text.now < 2 ^ 32 }
    ensures ok { IfOk result (λ p. IsCasePolicyOf text.now (said script.now) workflow.now.events p) }
    ensures refused { IfErr result (λ refusal. IsCasePolicyRefusal text.now (said script.now) workflow.now.events refusal) }
{
    let tokens = tokens_of(alloc, text)?;
    let cut = rule_tokens(alloc, text, &tokens)?;
    drop(tokens);
    let duties = without(alloc, text, &cut)?;
    let policy = duties_of(alloc, &duties, script)?;
    match people_of(alloc, text, &cut, &duties, workflow) {
        Ok(People { users, rules }) => Ok(CasePolicy {
            policy,
            rules,
            users,
        }),
        Err(refusal) => {
            drop(policy);
            Err(refusal)
        }
    }
}
