//! A workflow under a policy, from their texts.
ghost use Rattle.std.specs.Prelude.{◌≡◌, ◌+◌, [], ℕ, List, IfOk, IfErr, length};
ghost use Rattle.flow_form.specs.Script.{Said, said};
ghost use Rattle.flow_form.specs.Names.{IsClosed, event_names};
ghost use Rattle.flow_text.specs.Saying.{Says};
ghost use Rattle.flow_workflow.specs.Definition.{schema_of};
ghost use Rattle.flow_expand.specs.Workflows.{IsExpanded};
ghost use Rattle.flow_plan.specs.Compilation.{IsCompiled};
ghost use Rattle.flow_front.specs.Refusal.{workflow_part};
ghost use Rattle.flow_case.specs.CasePolicy.{IsCasePolicyOf};
ghost use Rattle.flow_questions_cli.specs.declared.stop.QuestionStop.TheVariants.{NoMemory};
ghost use Rattle.flow_questions_cli.specs.Subject.{AreBelow, IsOfScript, IsOfTexts, IsReady};
ghost use Rattle.flow_questions_cli.specs.Stops.{IsUnread, IsUncompiled, IsUngoverned, IsUnruled, IsNoScript, IsNoSubject};

use crate::stop::QuestionStop;
use flow_case::{CasePolicy, CaseRun, RuledRun, Users, case_policy_of};
use flow_core::Core;
use flow_form::Script;
use flow_front::{compile_workflow, expand_script};
use flow_model::GREATEST_INPUT;
use flow_plan::Compiled;
use flow_why_cli::script_of;
use flow_workflow::Workflow;
use std::alloc::Global;

/// A workflow under a policy: its run with no entry yet, its options, and the users by their numbers.
#[derive(Drop)]
pub(crate) struct Subject {
    pub(crate) run: RuledRun,
    pub(crate) compiled: Compiled,
    pub(crate) users: Users,
    /// A number past those of all users.
    pub(crate) past: u32,
}

/// So many entries may a run have that shows an answer: each leaf gives two at most.
const MOST_SHOWN: u32 = 10_000;

/// The options of the workflow.
fn options(alloc: Global, workflow: &Workflow) -> Result<Compiled, QuestionStop>
    ensures compiled { IfOk result (λ compiled. IsCompiled (schema_of workflow.now) compiled) }
    ensures refused { IfErr result (IsUncompiled (schema_of workflow.now)) }
{
    Ok(compile_workflow(alloc, workflow)?)
}

/// The run of the workflow, with no entry.
fn started(alloc: Global, workflow: Workflow) -> Result<Core, QuestionStop>
    ensures ok { IfOk result (λ core. (core.definition ≡ workflow) × (core.history ≡ [])) }
    ensures refused { IfErr result (IsUncompiled (schema_of workflow)) }
{
    match options(alloc, &workflow) {
        Ok(compiled) => Ok(Core::start(alloc, workflow, compiled, MOST_SHOWN)?),
        Err(stop) => {
            drop(workflow);
            Err(stop)
        }
    }
}

/// The policy that the text says, to the script whose events it names.
fn policy_in(
    alloc: Global,
    text: &[u8],
    script: &Script,
    workflow: &Workflow,
) -> Result<CasePolicy, QuestionStop>
    ensures ok { IfOk result (λ p. IsCasePolicyOf text.now (said script.now) workflow.now.events p) }
    ensures refused { IfErr result (IsUngoverned text.now (said script.now) workflow.now.events) }
{
    if text.len() > GREATEST_INPUT {
        return Err(QuestionStop::LongPolicy);
    }
    Ok(case_policy_of(alloc, text, script, workflow)?)
}

/// The run under the policy, and the users.
fn governed(core: Core, policy: CasePolicy) -> (RuledRun, Users)
    requires empty { core.history ≡ [] }
    requires same_events { (text : List ℕ) × (s : Said) × IsCasePolicyOf text s core.definition.events policy × (event_names s.decls ≡ core.definition.events) }
    ensures desk { result.0.desk ≡ record { run = core; assigned = policy.assigned } }
    ensures rules { result.0.rules ≡ policy.rules }
    ensures users { result.1 ≡ policy.assigned.users }
{
    let (case, users) = policy.into_run(core);
    match case {
        CaseRun::UnderPolicy(run) => (run, users),
        CaseRun::Free(_) => unreachable!(),
    }
}

/// A number past those of all users.
fn past_all(users: &Users) -> Result<u32, QuestionStop>
    ensures ok { IfOk result (λ past. past ≡ length users.now + 2) }
    ensures refused { IfErr result (λ stop. stop ≡ NoMemory) }
{
    match users.count().checked_add(2) {
        Some(past) => Ok(past),
        None => Err(QuestionStop::NoMemory),
    }
}

/// The options of the run's workflow, and a number past those of all users.
fn options_of(alloc: Global, run: &RuledRun, users: &Users) -> Result<(Compiled, u32), QuestionStop>
    ensures past { IfOk result (λ found. found.1 ≡ length users.now + 2) }
    ensures compiled { IfOk result (λ found. IsCompiled (schema_of run.now.desk.run.definition) found.0) }
    ensures refused { IfErr result (IsUncompiled (schema_of run.now.desk.run.definition)) }
{
    let past = past_all(users)?;
    let compiled = options(alloc, run.core().workflow())?;
    Ok((compiled, past))
}

/// The run under the policy, with its options.
fn subject_with(alloc: Global, run: RuledRun, users: Users) -> Result<Subject, QuestionStop>
    requires { AreBelow run.desk.assigned (length users + 2) }
    ensures same { IfOk result (λ subject. subject.run ≡ run) }
    ensures ready { IfOk result IsReady }
    ensures refused { IfErr result (IsUncompiled (schema_of run.desk.run.definition)) }
{
    match options_of(alloc, &run, &users) {
        Ok((compiled, past)) => Ok(Subject {
            run,
            compiled,
            users,
            past,
        }),
        Err(stop) => {
            drop(run);
            drop(users);
            Err(stop)
        }
    }
}

/// The run of the workflow under the policy that the text says to the script, and the users.
#[tactic(auto, using(crate::proofs::SubjectLemmas::same_events, crate::proofs::SubjectLemmas::roles_held, crate::proofs::SubjectLemmas::of_script, crate::proofs::SubjectLemmas::ungoverned))]
fn governed_by(
    alloc: Global,
    script: &Script,
    core: Core,
    policy: &[u8],
) -> Result<(RuledRun, Users), QuestionStop>
    requires expanded { IsExpanded (said script.now) core.definition }
    requires empty { core.history ≡ [] }
    ensures of_script { IfOk result (λ found. IsOfScript (said script.now) policy.now found.0.desk found.0.rules) }
    ensures below { IfOk result (λ found. AreBelow found.0.desk.assigned (length found.1 + 2)) }
    ensures refused { IfErr result (IsUnruled (said script.now) policy.now) }
{
    match policy_in(alloc, policy, script, core.workflow()) {
        Ok(policy) => Ok(governed(core, policy)),
        Err(stop) => {
            drop(core);
            Err(stop)
        }
    }
}

/// The workflow under the policy that the text says.
#[tactic(auto, using(crate::proofs::SubjectLemmas::uncompiled))]
fn subject_of(
    alloc: Global,
    script: &Script,
    workflow: Workflow,
    policy: &[u8],
) -> Result<Subject, QuestionStop>
    requires { IsExpanded (said script.now) workflow }
    ensures of_script { IfOk result (λ subject. IsOfScript (said script.now) policy.now subject.run.desk subject.run.rules) }
    ensures ready { IfOk result IsReady }
    ensures refused { IfErr result (IsUnruled (said script.now) policy.now) }
{
    let core = started(alloc, workflow)?;
    match governed_by(alloc, script, core, policy) {
        Ok((run, users)) => subject_with(alloc, run, users),
        Err(stop) => Err(stop),
    }
}

/// The workflow that the script says, under the policy that the text says.
fn subject_in(alloc: Global, script: &Script, policy: &[u8]) -> Result<Subject, QuestionStop>
    requires { IsClosed (said script.now) }
    ensures of_script { IfOk result (λ subject. IsOfScript (said script.now) policy.now subject.run.desk subject.run.rules) }
    ensures ready { IfOk result IsReady }
    ensures refused { IfErr result (IsNoScript (said script.now) policy.now) }
{
    let workflow = expand_script(alloc, script)?;
    subject_of(alloc, script, workflow, policy)
}

/// What the text of a workflow says. What stands behind a line `%%` is not looked at.
fn script_in(alloc: Global, text: &[u8]) -> Result<Script, QuestionStop>
    ensures says { IfOk result (λ script. Says (workflow_part text.now) (said script)) }
    ensures closed { IfOk result (λ script. IsClosed (said script)) }
    ensures refused { IfErr result (IsUnread text.now) }
{
    Ok(script_of(alloc, text)?)
}

/// The workflow and the policy of two texts. What stands behind a line `%%` of the workflow is not looked at.
pub(crate) fn read_subject(
    alloc: Global,
    workflow: &[u8],
    policy: &[u8],
) -> Result<Subject, QuestionStop>
    ensures of_texts { IfOk result (λ subject. IsOfTexts workflow.now policy.now subject.run.desk subject.run.rules) }
    ensures ready { IfOk result IsReady }
    ensures refused { IfErr result (IsNoSubject workflow.now policy.now) }
{
    let script = script_in(alloc, workflow)?;
    let subject = subject_in(alloc, &script, policy);
    drop(script);
    subject
}
