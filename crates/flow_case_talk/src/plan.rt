//! What is done for a command.
ghost use Rattle.std.specs.Prelude.{◌≡◌, [], ◌∷◌, ◌++◌, ℕ, map, IfOk, IfErr};
ghost use Rattle.flow_ask.specs.declared.ask.Ask.TheVariants as ask;
ghost use Rattle.flow_names.specs.declared.command.Command.TheVariants.{Take, Tidy, Rewind};
ghost use Rattle.flow_case_talk.specs.Plans.{IsPlanOf, IsUnmeant, IsUnplanned, EndsTask, MeansOne, IsOneAsk};

use crate::book::{Book, Speaker};
use crate::ticks::taken_meant;
use flow_ask::{Ask, Refusal};
use flow_core::Core;
use flow_names::{Command, NameRefusal, TaskRef, leaf_of_task, meaning};
use flow_standing::TakenBack;
use std::alloc::{AllocError, Global};

/// What is done for a command.
#[derive(Drop)]
pub(crate) enum Plan {
    /// Something is shown, and nothing asked.
    Show,
    /// It is told why the leaf waits.
    Why(u32),
    /// These are asked one after another.
    Ask(Vec<Ask>),
    /// These are asked, and behind them the updates that close off no choice.
    AskAndTidy(Vec<Ask>),
    /// It is refused before the run is asked.
    Refuse(Refusal),
    /// What a step back took is ticked off, if it is found.
    TickOff(Option<TakenBack>),
}

/// What is to be done for a user's command.
#[tactic(auto, using(crate::proofs::PlanLemmas::why_plan, crate::proofs::PlanLemmas::no_why, crate::proofs::PlanLemmas::want_plan, crate::proofs::PlanLemmas::none_one, crate::proofs::PlanLemmas::one_ask))]
pub(crate) fn plan_of<B: Book>(
    alloc: Global,
    book: &mut B,
    speaker: Speaker<'_>,
    command: &Command,
) -> Result<Plan, NameRefusal>
    ensures case { B.kept_case book.new ≡ B.kept_case book.old }
    ensures plan { IfOk result (IsPlanOf (B.tidied book.old) speaker.entry.number (B.kept_case book.old).run command.now) }
    ensures none { IfErr result (IsUnplanned (B.kept_case book.old).run command.now) }
{
    match command {
        Command::Take(task) => plan_to_take(alloc, book, speaker.number, task),
        Command::Tidy => plan_to_tidy(alloc, book, speaker.number),
        Command::Rewind => Ok(plan_to_step_back(alloc, book, speaker.number)?),
        Command::Why(task) => Ok(Plan::Why(leaf_of_task(alloc, book.core(), task)?)),
        Command::TickOff(claim) => Ok(Plan::TickOff(taken_meant(alloc, book, claim)?)),
        Command::Done(_) => plan_to_finish(alloc, book, command),
        Command::Fail(_) | Command::Do(_) | Command::Commit => {
            Ok(Plan::Ask(ask_meant(alloc, book.core(), command)?))
        }
        Command::Todo | Command::History | Command::Undone | Command::Facts | Command::Report => Ok(
            Plan::Show,
        ),
    }
}

/// The tests and updates that the task waits for, and then the claim.
#[tactic(auto, using(crate::proofs::PlanLemmas::take_plan, crate::proofs::PlanLemmas::no_take, crate::proofs::PlanLemmas::want_plan))]
fn plan_to_take<B: Book>(
    alloc: Global,
    book: &mut B,
    by: u32,
    task: &TaskRef,
) -> Result<Plan, NameRefusal>
    ensures case { B.kept_case book.new ≡ B.kept_case book.old }
    ensures plan { IfOk result (IsPlanOf (B.tidied book.old) by (B.kept_case book.old).run (Take task.now)) }
    ensures none { IfErr result (IsUnplanned (B.kept_case book.old).run (Take task.now)) }
{
    let leaf = leaf_of_task(alloc, book.core(), task)?;
    let steps = book.steps_to_take(alloc, leaf, by)?;
    Ok(Plan::Ask(asks_to_take(alloc, &steps, leaf)?))
}

/// That these leaves are to be done, and then a claim.
fn asks_to_take(alloc: Global, steps: &[u32], leaf: u32) -> Result<Vec<Ask>, AllocError>
    ensures { IfOk result (λ asks. asks.items ≡ map ask.Do steps.now ++ ask.Take leaf ∷ []) }
{
    let mut asks = asks_of(alloc, steps)?;
    asks.push(Ask::Take(leaf))?;
    Ok(asks)
}

/// The updates that close off no choice.
#[tactic(auto, using(crate::proofs::PlanLemmas::tidy_plan, crate::proofs::PlanLemmas::want_plan))]
fn plan_to_tidy<B: Book>(alloc: Global, book: &mut B, by: u32) -> Result<Plan, NameRefusal>
    ensures case { B.kept_case book.new ≡ B.kept_case book.old }
    ensures plan { IfOk result (IsPlanOf (B.tidied book.old) by (B.kept_case book.old).run Tidy) }
    ensures none { IfErr result (IsUnplanned (B.kept_case book.old).run Tidy) }
{
    let steps = book.tidy_steps(alloc, by)?;
    Ok(Plan::Ask(asks_of(alloc, &steps)?))
}

/// A step back, if the user may make one.
#[tactic(auto, using(crate::proofs::PlanLemmas::back_plan, crate::proofs::PlanLemmas::no_back_plan))]
fn plan_to_step_back<B: Book>(alloc: Global, book: &B, by: u32) -> Result<Plan, AllocError>
    ensures { IfOk result (IsPlanOf (B.tidied book.now) by (B.kept_case book.now).run Rewind) }
{
    if book.may_step_back(by) {
        Ok(Plan::Ask(one_ask(alloc, Ask::Rewind)?))
    } else {
        Ok(Plan::Refuse(Refusal::Back))
    }
}

/// The task of a claim is done; in a case that is tidied, updates follow.
#[tactic(auto, using(crate::proofs::PlanLemmas::finish_plan, crate::proofs::PlanLemmas::end_plan, crate::proofs::PlanLemmas::none_one, crate::proofs::PlanLemmas::ends_one))]
fn plan_to_finish<B: Book>(alloc: Global, book: &B, command: &Command) -> Result<Plan, NameRefusal>
    requires { EndsTask command.now }
    ensures plan { (by : ℕ) → IfOk result (IsPlanOf (B.tidied book.now) by (B.kept_case book.now).run command.now) }
    ensures none { IfErr result (IsUnplanned (B.kept_case book.now).run command.now) }
{
    let asks = ask_meant(alloc, book.core(), command)?;
    if book.is_tidied() {
        Ok(Plan::AskAndTidy(asks))
    } else {
        Ok(Plan::Ask(asks))
    }
}

/// The one ask that a command means which means one.
#[tactic(auto, using(crate::proofs::PlanLemmas::not_none, crate::proofs::PlanLemmas::want_one, crate::proofs::PlanLemmas::unmeant_one))]
fn ask_meant(alloc: Global, core: &Core, command: &Command) -> Result<Vec<Ask>, NameRefusal>
    requires { MeansOne command.now }
    ensures asks { IfOk result (λ asks. IsOneAsk core.now command.now asks.items) }
    ensures none { IfErr result (IsUnmeant core.now command.now) }
{
    match meaning(alloc, core, command)? {
        Some(ask) => Ok(one_ask(alloc, ask)?),
        None => Ok(Vec::new(alloc)),
    }
}

fn one_ask(alloc: Global, ask: Ask) -> Result<Vec<Ask>, AllocError>
    ensures { IfOk result (λ asks. asks.items ≡ ask ∷ []) }
{
    let mut asks = Vec::new(alloc);
    asks.push(ask)?;
    Ok(asks)
}

/// That these leaves are to be done.
pub(crate) fn asks_of(alloc: Global, steps: &[u32]) -> Result<Vec<Ask>, AllocError>
    ensures { IfOk result (λ asks. asks.items ≡ map ask.Do steps.now) }
{
    let mut asks = Vec::new(alloc);
    for step in steps {
        asks.push(Ask::Do(*step))?;
    }
    Ok(asks)
}
