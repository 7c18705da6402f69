//! What is asked, and what is told of it.
ghost use Rattle.std.specs.Prelude.{◌≡◌, ◌⊎◌, ℕ, List, IfOk, IfErr};
ghost use Rattle.flow_core.specs.Run.{schema};
ghost use Rattle.flow_core.specs.Lawful.{IsLawful};
ghost use Rattle.flow_roles.specs.Desked.{KeepsDuties};
ghost use Rattle.flow_questions.specs.Questions.{IsRunOfSame, TellsOfBoth, TellsOfStaff};
ghost use Rattle.flow_questions_cli.specs.Subject.{IsOfTexts, IsReady};
ghost use Rattle.flow_questions_cli.specs.Stops.{IsNoSubject, IsMisnamed, IsNoMemory};
ghost use Rattle.flow_questions_cli.specs.Told.{status_of_shared, status_of_manning, IsFoundOfBoth, IsFoundOfStaff, IsToldOfBoth, IsToldOfStaff};

use crate::names::pair_of;
use crate::stop::QuestionStop;
use crate::subject::{Subject, read_subject};
use crate::{json, words};
use flow_case::RuledRun;
use flow_front::{Output, Status};
use flow_model::Entry;
use flow_questions::{Manning, Shared, alone, staffed};
use std::alloc::{AllocError, Global};

/// How answers are written.
#[derive(Clone, Copy)]
pub enum Form {
    Words,
    Json,
}

/// The status where that is found.
fn status_of_shared(told: Shared) -> Status
    ensures { result ≡ status_of_shared told }
{
    match told {
        Shared::By(_) => Status::No,
        Shared::Never => Status::Fine,
        Shared::Undecided(_) => Status::Spent,
        Shared::Unmade => Status::Spent,
    }
}

/// The status where that is found.
fn status_of_manning(told: Manning) -> Status
    ensures { result ≡ status_of_manning told }
{
    match told {
        Manning::Unmanned(_) => Status::No,
        Manning::Always => Status::Fine,
        Manning::Undecided(_) => Status::Spent,
        Manning::Unmade => Status::Spent,
    }
}

/// The entries of the run.
pub(crate) fn entries(run: &RuledRun) -> &[Entry]
    ensures entries { result.now ≡ run.now.desk.run.history }
    ensures lawful { IsLawful (schema run.now.desk.run) run.now.desk.run.limit run.now.desk.run.history }
    ensures duties { KeepsDuties run.now.desk }
{
    run.core().history()
}

/// What is found of one user who has both events.
fn look_for_both(
    alloc: Global,
    subject: &mut Subject,
    pair: (u32, u32),
    states: u64,
) -> Result<Shared, AllocError>
    requires { IsReady subject.old }
    ensures same { IsRunOfSame subject.old.run subject.new.run }
    ensures told { IfOk result (TellsOfBoth subject.new.run pair.0 pair.1 states) }
{
    let past = subject.past;
    let (one, two) = pair;
    let Subject { run, compiled, .. } = subject;
    alone(alloc, run, compiled, past, one, two, states)
}

/// What is found of an event that nobody may take.
fn look_for_unmanned(
    alloc: Global,
    subject: &mut Subject,
    states: u64,
) -> Result<Manning, AllocError>
    requires { IsReady subject.old }
    ensures same { IsRunOfSame subject.old.run subject.new.run }
    ensures told { IfOk result (TellsOfStaff subject.new.run states) }
{
    let past = subject.past;
    let Subject { run, compiled, .. } = subject;
    staffed(alloc, run, compiled, past, states)
}

/// That in the form that is asked for.
fn shared_text(
    alloc: Global,
    subject: &Subject,
    names: (&[u8], &[u8]),
    told: Shared,
    form: Form,
) -> Result<Vec<u8>, AllocError> {
    match form {
        Form::Words => words::shared(alloc, subject, names, told),
        Form::Json => json::shared(alloc, subject, told),
    }
}

/// That in the form that is asked for.
fn manned_text(
    alloc: Global,
    subject: &Subject,
    told: Manning,
    form: Form,
) -> Result<Vec<u8>, AllocError> {
    match form {
        Form::Words => words::manned(alloc, subject, told),
        Form::Json => json::manned(alloc, subject, told),
    }
}

/// Tells what is found of one user who has both events.
fn both_told(
    alloc: Global,
    subject: &mut Subject,
    pair: (u32, u32),
    names: (&[u8], &[u8]),
    states: u64,
    form: Form,
) -> Result<Output, AllocError>
    requires { IsReady subject.old }
    ensures { IfOk result (λ output. IsFoundOfBoth subject.old.run pair.0 pair.1 states output.status) }
{
    let told = look_for_both(alloc, subject, pair, states)?;
    // duties hold after each of them
    let _entries = entries(&subject.run);
    let status = status_of_shared(told);
    let text = shared_text(alloc, subject, names, told, form)?;
    Ok(Output { status, text })
}

/// Tells what is found of an event that nobody may take.
fn staff_told(
    alloc: Global,
    subject: &mut Subject,
    states: u64,
    form: Form,
) -> Result<Output, AllocError>
    requires { IsReady subject.old }
    ensures { IfOk result (λ output. IsFoundOfStaff subject.old.run states output.status) }
{
    let told = look_for_unmanned(alloc, subject, states)?;
    // duties hold after each of them
    let _entries = entries(&subject.run);
    let status = status_of_manning(told);
    let text = manned_text(alloc, subject, told, form)?;
    Ok(Output { status, text })
}

/// Tells what is found of one user who has the events of these names.
#[tactic(auto, using(crate::proofs::AskedLemmas::both_of_texts, crate::proofs::AskedLemmas::misnamed))]
fn named_told(
    alloc: Global,
    subject: &mut Subject,
    one: &[u8],
    two: &[u8],
    states: u64,
    form: Form,
) -> Result<Output, QuestionStop>
    requires { IsReady subject.old }
    ensures told { (workflow policy : List ℕ) → IsOfTexts workflow policy subject.old.run.desk subject.old.run.rules →
        IfOk result (λ output. IsToldOfBoth workflow policy one.now two.now states output.status) }
    ensures refused { (workflow policy : List ℕ) → IsOfTexts workflow policy subject.old.run.desk subject.old.run.rules →
        IfErr result (λ stop. IsMisnamed workflow policy one.now two.now stop ⊎ IsNoMemory stop) }
{
    let pair = pair_of(alloc, subject.run.core().workflow(), one, two)?;
    Ok(both_told(alloc, subject, pair, (one, two), states, form)?)
}

/// Looks for a run of the workflow of the one text, under the policy of the other, in which one user has both events. Not more than so
/// many states are looked at. The status is 1 where a run shows it, 0 where no run does, and 7 where that is open.
pub fn tell_alone(
    alloc: Global,
    workflow: &[u8],
    policy: &[u8],
    one: &[u8],
    two: &[u8],
    states: u64,
    form: Form,
) -> Result<Output, QuestionStop>
    ensures told { IfOk result (λ output. IsToldOfBoth workflow.now policy.now one.now two.now states output.status) }
    ensures refused { IfErr result (λ stop.
        IsNoSubject workflow.now policy.now stop ⊎ (IsMisnamed workflow.now policy.now one.now two.now stop ⊎ IsNoMemory stop)) }
{
    let mut subject = read_subject(alloc, workflow, policy)?;
    let told = named_told(alloc, &mut subject, one, two, states, form);
    drop(subject);
    told
}

/// Looks for a run of the workflow of the one text, under the policy of the other, behind which an event may be begun that nobody may
/// take. Not more than so many states are looked at. The status is 1 where a run shows it, 0 where no run does, and 7 where that is
/// open.
#[tactic(auto, using(crate::proofs::AskedLemmas::staff_of_texts))]
pub fn tell_staffed(
    alloc: Global,
    workflow: &[u8],
    policy: &[u8],
    states: u64,
    form: Form,
) -> Result<Output, QuestionStop>
    ensures told { IfOk result (λ output. IsToldOfStaff workflow.now policy.now states output.status) }
    ensures refused { IfErr result (λ stop. IsNoSubject workflow.now policy.now stop ⊎ IsNoMemory stop) }
{
    let mut subject = read_subject(alloc, workflow, policy)?;
    let told = staff_told(alloc, &mut subject, states, form);
    drop(subject);
    Ok(told?)
}
