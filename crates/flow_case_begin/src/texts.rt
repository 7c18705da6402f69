//! The run of a case as it begins, made of its texts.
ghost use Rattle.std.specs.Prelude.{◌≡◌, ◌≤◌, [], ◌∷◌, ◌++◌, ℕ, List, length, IfOk, IfErr, OnOk};
ghost use Rattle.std.specs.Option.{option_map};
ghost use Rattle.flow_form.specs.Script.{Said, said};
ghost use Rattle.flow_form.specs.Names.{IsClosed};
ghost use Rattle.flow_text.specs.Saying.{Says};
ghost use Rattle.flow_text.specs.Parser.{bytes_now};
ghost use Rattle.flow_workflow.specs.Definition.{schema_of};
ghost use Rattle.flow_expand.specs.Workflows.{IsExpanded};
ghost use Rattle.flow_plan.specs.Compilation.{IsCompiled};
ghost use Rattle.flow_case.specs.declared.case_run.CaseRun.{CaseRun as Case};
ghost use Rattle.flow_case.specs.CasePolicy.{IsCasePolicyOf};
ghost use Rattle.flow_case.specs.CaseRun.{case_with as run_with};
ghost use Rattle.flow_case_begin.specs.Begun.{IsBegunRun, IsBegun, IsCaseOf};
ghost use Rattle.flow_case_begin.specs.Stops.{IsUnread, IsUnbegun, IsUngoverned, IsUnbegunBy, IsNoCaseOf};

use crate::stop::CaseStop;
use flow_case::{CasePolicy, CaseRun, Users, case_policy_of};
use flow_core::Core;
use flow_form::Script;
use flow_front::{Prepared, Refused, Stop, prepare};
use flow_model::{Entry, GREATEST_INPUT};
use flow_text::parse;
use flow_workflow::Workflow;
use std::alloc::Global;

/// The texts by which a case is judged.
#[derive(Clone, Copy)]
pub struct CaseTexts<'a> {
    pub workflow: &'a [u8],
    /// None where the case has no duties.
    pub policy: Option<&'a [u8]>,
}

/// The greatest length of a history.
pub const MOST_STEPS: u32 = 65_536;

/// What the text of a workflow says.
fn script_of(alloc: Global, text: &[u8]) -> Result<Script, CaseStop>
    ensures says { IfOk result (λ script. Says text.now (said script)) }
    ensures closed { IfOk result (λ script. IsClosed (said script)) }
    ensures refused { IfErr result (IsUnread text.now) }
{
    if text.len() > GREATEST_INPUT {
        return Err(CaseStop::Workflow(Stop::Refused(Refused::TooLong)));
    }
    match parse(alloc, text) {
        Ok(script) => Ok(script),
        Err(refusal) => Err(CaseStop::Workflow(Stop::from(refusal))),
    }
}

/// What the text of a policy says to the script.
fn policy_of(
    alloc: Global,
    text: &[u8],
    script: &Script,
    workflow: &Workflow,
) -> Result<CasePolicy, CaseStop>
    ensures ok { IfOk result (λ p. IsCasePolicyOf text.now (said script.now) workflow.now.events p) }
    ensures refused { IfErr result (IsUngoverned text.now (said script.now) workflow.now.events) }
{
    if text.len() > GREATEST_INPUT {
        return Err(CaseStop::LongPolicy);
    }
    Ok(case_policy_of(alloc, text, script, workflow)?)
}

/// The workflow that the script says, compiled.
pub fn prepared(alloc: Global, script: &Script) -> Result<Prepared, CaseStop>
    requires { IsClosed (said script.now) }
    ensures expanded { IfOk result (λ p. IsExpanded (said script.now) p.workflow) }
    ensures compiled { IfOk result (λ p. IsCompiled (schema_of p.workflow) p.compiled) }
    ensures refused { IfErr result (IsUnbegun (said script.now)) }
{
    Ok(prepare(alloc, script)?)
}

/// The run of the script's workflow, with no entry.
fn begun_run(alloc: Global, script: &Script) -> Result<Core, CaseStop>
    requires { IsClosed (said script.now) }
    ensures ok { IfOk result (λ core. IsBegunRun (said script.now) core) }
    ensures refused { IfErr result (IsUnbegun (said script.now)) }
{
    let Prepared { workflow, compiled } = prepared(alloc, script)?;
    Ok(Core::start(alloc, workflow, compiled, MOST_STEPS)?)
}

/// The case of the run, under the policy that the text says.
fn governed(
    alloc: Global,
    text: &[u8],
    script: &Script,
    core: Core,
) -> Result<(CaseRun, Option<Users>), CaseStop>
    requires { IsBegunRun (said script.now) core }
    ensures ok { IfOk result (λ case. IsBegun (said script.now) (Some text.now) case.0) }
    ensures refused { IfErr result (IsUnbegunBy (said script.now) (Some text.now)) }
{
    match policy_of(alloc, text, script, core.workflow()) {
        Ok(policy) => {
            let (run, users) = policy.into_run(core);
            Ok((run, Some(users)))
        }
        Err(stop) => {
            drop(core);
            Err(stop)
        }
    }
}

/// The case of what the script says, with no entry yet, and its users where it has a policy.
pub fn case_begun(
    alloc: Global,
    script: &Script,
    policy: Option<&[u8]>,
) -> Result<(CaseRun, Option<Users>), CaseStop>
    requires { IsClosed (said script.now) }
    ensures ok { IfOk result (λ case. IsBegun (said script.now) (option_map bytes_now policy.entry) case.0) }
    ensures refused { IfErr result (IsUnbegunBy (said script.now) (option_map bytes_now policy.entry)) }
{
    let core = begun_run(alloc, script)?;
    match policy {
        Some(text) => governed(alloc, text, script, core),
        None => Ok((CaseRun::Free(core), None)),
    }
}

/// What the texts of a case say.
#[derive(Drop)]
pub struct Begun {
    pub script: Script,
    /// The case with no entry yet.
    pub run: CaseRun,
    /// None where the case has no policy.
    pub users: Option<Users>,
}

/// What the texts of a case say.
pub fn begin(alloc: Global, texts: CaseTexts<'_>) -> Result<Begun, CaseStop>
    ensures says { IfOk result (λ b. Says texts.entry.workflow.now (said b.script)) }
    ensures closed { IfOk result (λ b. IsClosed (said b.script)) }
    ensures begun { IfOk result (λ b. IsBegun (said b.script) (option_map bytes_now texts.entry.policy) b.run) }
    ensures refused { IfErr result (IsNoCaseOf texts.entry.workflow.now (option_map bytes_now texts.entry.policy)) }
{
    let script = script_of(alloc, texts.workflow)?;
    match case_begun(alloc, &script, texts.policy) {
        Ok((run, users)) => Ok(Begun { script, run, users }),
        Err(stop) => {
            drop(script);
            Err(stop)
        }
    }
}

/// The case of the texts with these entries.
pub fn case_with(
    alloc: Global,
    texts: CaseTexts<'_>,
    entries: &[Entry],
) -> Result<CaseRun, CaseStop>
    ensures { IfOk result (λ case. (begun : Case) × IsCaseOf texts.entry.workflow.now (option_map bytes_now texts.entry.policy) begun
        × (case ≡ run_with begun entries.now)) }
{
    let Begun { script, run, users } = begin(alloc, texts)?;
    drop(script);
    drop(users);
    let mut run = run;
    match run.follow(entries) {
        Ok(()) => Ok(run),
        Err(index) => {
            drop(run);
            Err(CaseStop::Foreign(index))
        }
    }
}

/// Whether a case can be made of the texts.
pub fn check_texts(alloc: Global, texts: CaseTexts<'_>) -> Result<(), CaseStop>
    ensures ok { OnOk result ((begun : Case) × IsCaseOf texts.entry.workflow.now (option_map bytes_now texts.entry.policy) begun) }
    ensures refused { IfErr result (IsNoCaseOf texts.entry.workflow.now (option_map bytes_now texts.entry.policy)) }
{
    match begin(alloc, texts) {
        Ok(begun) => {
            drop(begun);
            Ok(())
        }
        Err(stop) => Err(stop),
    }
}
