//! Which lines are shown.
ghost use Rattle.std.specs.Prelude.{◌≡◌, ◌↔◌, ◌⊎◌, ◌≢◌, [], IsTrue};
ghost use Rattle.std.specs.String.{string_bytes};
ghost use Rattle.flow_list.specs.Filter.{IsUserOf, IsNamedIn, IsBegunBy, SomeBegin, SomeOut, IsFor, IsForAny, IsIn, IsOld, HasText, IsShown};

use crate::line::CaseLine;
use crate::taken::TaskOut;
use crate::tasks::Beginning;
use flow_case_seen::SharedTexts;
use flow_case_state::CaseState;

/// What a line is to meet, to be shown.
#[derive(Drop)]
pub struct Filter {
    /// The case waits for the user of that name.
    pub user: Option<String>,
    /// The case stands so.
    pub state: Option<CaseState>,
    /// The last entry was made at that second, or before it.
    pub until: Option<u64>,
    /// The workflow has that text.
    pub workflow: Option<Vec<u8>>,
}

/// Whether the user of that number has that name.
fn is_named(texts: &SharedTexts, number: u32, user: &str) -> bool
    ensures { IsTrue result ↔ IsUserOf texts.now.users number user.now }
{
    let Some(users) = texts.users() else {
        return false;
    };
    match users.name_of(number) {
        Some(name) => name.bytes() == user.as_bytes(),
        None => false,
    }
}

/// Whether one of the users has that name.
fn is_one_named(texts: &SharedTexts, numbers: &[u32], user: &str) -> bool
    ensures { IsTrue result ↔ IsNamedIn texts.now.users numbers.now user.now }
{
    for number in numbers {
        if is_named(texts, *number, user) {
            return true;
        }
    }
    false
}

/// Whether the user of that name may begin the task.
fn is_begun_by(texts: &SharedTexts, task: &Beginning, user: &str) -> bool
    ensures { IsTrue result ↔ IsBegunBy texts.now.users user.now task.now }
{
    match &task.users {
        Some(numbers) => is_one_named(texts, numbers, user),
        None => true,
    }
}

/// Whether the user of that name may begin one of the tasks.
fn may_begin_one(texts: &SharedTexts, tasks: &[Beginning], user: &str) -> bool
    ensures { IsTrue result ↔ SomeBegin texts.now.users user.now tasks.now }
{
    for task in tasks {
        if is_begun_by(texts, task, user) {
            return true;
        }
    }
    false
}

/// Whether the user of that name has the task.
fn is_held_by(task: &TaskOut, user: &str) -> bool
    ensures { IsTrue result ↔ (string_bytes task.now.user ≡ user.now) }
{
    task.user.as_bytes() == user.as_bytes()
}

/// Whether the user of that name has one of the tasks.
fn has_one(tasks: &[TaskOut], user: &str) -> bool
    ensures { IsTrue result ↔ SomeOut user.now tasks.now }
{
    for task in tasks {
        if is_held_by(task, user) {
            return true;
        }
    }
    false
}

/// Whether a test or an update may be done.
fn has_step(line: &CaseLine) -> bool
    ensures { IsTrue result ↔ (line.now.steps.free.items ≢ []) }
{
    match line.steps.free.as_slice() {
        [] => false,
        _ => true,
    }
}

/// Whether the user of that name has one of the tasks, or a test or an update may be done.
fn has_one_or_step(line: &CaseLine, user: &str) -> bool
    ensures { IsTrue result ↔ (SomeOut user.now line.now.tasks.out.items ⊎ (line.now.steps.free.items ≢ [])) }
{
    has_one(&line.tasks.out, user) || has_step(line)
}

/// Whether the case waits for the user of that name: who may begin one of its tasks, has one of them, or may do a test or an update,
/// which anybody may.
fn is_for(texts: &SharedTexts, line: &CaseLine, user: &str) -> bool
    ensures { IsTrue result ↔ IsFor texts.now.users user.now line.now }
{
    may_begin_one(texts, &line.tasks.begin, user) || has_one_or_step(line, user)
}

/// Whether the case waits for the user of that name, if one is asked for.
fn is_for_asked(texts: &SharedTexts, line: &CaseLine, user: &Option<String>) -> bool
    ensures { IsTrue result ↔ IsForAny texts.now.users user.now line.now }
{
    match user {
        Some(user) => is_for(texts, line, user.as_str()),
        None => true,
    }
}

/// Whether the case stands so, if that is asked for.
fn is_in(line: &CaseLine, state: Option<CaseState>) -> bool
    ensures { IsTrue result ↔ IsIn state line.now }
{
    match state {
        Some(state) => line.state == state,
        None => true,
    }
}

/// Whether a last entry that was made at that second is old enough, if that is asked for. One whose second is not known is not.
fn is_old(second: Option<u64>, until: Option<u64>) -> bool
    ensures { IsTrue result ↔ IsOld until second }
{
    match (until, second) {
        (None, _) => true,
        (Some(until), Some(second)) => second <= until,
        (Some(_), None) => false,
    }
}

/// Whether the workflow has the text, if one is asked for.
fn has_text(texts: &SharedTexts, workflow: &Option<Vec<u8>>) -> bool
    ensures { IsTrue result ↔ HasText texts.now workflow.now }
{
    match workflow {
        Some(workflow) => texts.workflow() == workflow.as_slice(),
        None => true,
    }
}

/// Whether the line of a case of these texts is shown. The second is that of its last entry, where it is known.
pub fn is_shown(filter: &Filter, texts: &SharedTexts, line: &CaseLine, second: Option<u64>) -> bool
    ensures { IsTrue result ↔ IsShown filter.now texts.now line.now second }
{
    is_for_asked(texts, line, &filter.user)
        && is_in(line, filter.state)
        && is_old(second, filter.until)
        && has_text(texts, &filter.workflow)
}
