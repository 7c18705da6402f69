//! What to look at in a policy, and what is told of it.
ghost use Rattle.std.specs.Prelude.{◌≡◌, ◌⊎◌, ℕ, List, map, IfOk, IfErr};
ghost use Rattle.flow_policy.specs.Statement.{Statement};
ghost use Rattle.flow_policy.specs.Texts.{SaysPolicy};
ghost use Rattle.flow_policy_lint.specs.Heads.{said, head_of};
ghost use Rattle.flow_policy_lint.specs.Told.{ArePolicyFindings};
ghost use Rattle.flow_questions_cli.specs.Subject.{IsOfTexts, IsReady};
ghost use Rattle.flow_questions_cli.specs.Stops.{IsNoSubject, IsNoMemory};
ghost use Rattle.flow_questions_cli.specs.Told.{IsStatusOf, IsToldOfPolicy};

use crate::asked::Form;
use crate::finding_json::finding_objects;
use crate::finding_words::finding_lines;
use crate::policy_places::Places;
use crate::stop::QuestionStop;
use crate::subject::{Subject, read_subject};
use flow_front::{Output, Status};
use flow_policy_lint::{Head, PolicyFindings, heads_of, lint_policy};
use std::alloc::{AllocError, Global};

/// The status where that is found.
fn status_of(found: &PolicyFindings) -> Status
    ensures { IsStatusOf found.now result }
{
    if found.is_empty() {
        Status::Fine
    } else {
        Status::No
    }
}

/// What to look at in the policy that is asked.
fn findings_of(
    alloc: Global,
    subject: &Subject,
    heads: &[Head<'_>],
) -> Result<PolicyFindings, AllocError>
    ensures { IfOk result (λ found. ArePolicyFindings subject.now.run.desk.assigned.duties subject.now.past (map said heads.now)
        subject.now.run.desk.run.definition subject.now.run.rules.finals found) }
{
    let run = &subject.run;
    let workflow = run.core().workflow();
    lint_policy(
        alloc,
        workflow,
        run.policy(),
        run.rules(),
        heads,
        subject.past,
    )
}

/// That in the form that is asked for.
fn findings_text(
    alloc: Global,
    subject: &Subject,
    places: &Places<'_>,
    found: &PolicyFindings,
    form: Form,
) -> Result<Vec<u8>, AllocError> {
    match form {
        Form::Words => finding_lines(alloc, subject, places, found),
        Form::Json => finding_objects(alloc, subject, places, found),
    }
}

/// What is told of the policy, whose statements begin so.
fn policy_told(
    alloc: Global,
    subject: &Subject,
    places: &Places<'_>,
    form: Form,
) -> Result<Output, AllocError>
    requires ready { IsReady subject.now }
    ensures { (workflow policy : List ℕ) → IsOfTexts workflow policy subject.now.run.desk subject.now.run.rules →
        ((statements : List Statement) → SaysPolicy policy statements → map said places.now.heads.now ≡ map head_of statements) →
        IfOk result (λ output. IsToldOfPolicy workflow policy output.status) }
{
    let found = findings_of(alloc, subject, places.heads)?;
    let status = status_of(&found);
    let text = findings_text(alloc, subject, places, &found, form)?;
    Ok(Output { status, text })
}

/// What is told of the policy that the text says.
fn text_told(
    alloc: Global,
    subject: &Subject,
    policy: &[u8],
    before: usize,
    form: Form,
) -> Result<Output, AllocError>
    requires ready { IsReady subject.now }
    ensures { (workflow : List ℕ) → IsOfTexts workflow policy.now subject.now.run.desk subject.now.run.rules →
        IfOk result (λ output. IsToldOfPolicy workflow policy.now output.status) }
{
    match heads_of(alloc, policy) {
        Ok(heads) => {
            let places = Places {
                text: policy,
                before,
                heads: &heads,
            };
            policy_told(alloc, subject, &places, form)
        }
        Err(AllocError) => Err(AllocError),
    }
}

/// Tells what to look at in a policy: a line for each finding, and status 1; nothing, and status 0, where there is none. So many lines
/// of its file stand before the policy. It compiles the workflow up to three times for each final event and each event.
pub fn tell_policy(
    alloc: Global,
    workflow: &[u8],
    policy: &[u8],
    before: usize,
    form: Form,
) -> Result<Output, QuestionStop>
    ensures told { IfOk result (λ output. IsToldOfPolicy workflow.now policy.now output.status) }
    ensures refused { IfErr result (λ stop. IsNoSubject workflow.now policy.now stop ⊎ IsNoMemory stop) }
{
    let subject = read_subject(alloc, workflow, policy)?;
    let told = text_told(alloc, &subject, policy, before, form);
    drop(subject);
    Ok(told?)
}
