ghost use Rattle.std.specs.Prelude.{◌≡◌, ℕ, IfOk, slice_get};
ghost use Rattle.flow_core.specs.Run.{schema};
ghost use Rattle.flow_core.specs.Lawful.{IsLawful};
ghost use Rattle.flow_record.specs.declared.command.Command.TheVariants.{Ask as Asks, Look as Looks};
ghost use Rattle.flow_step.specs.Given.{Gives};

use crate::stepped::Stepped;
use flow_ask::{Ask, Look};
use flow_core::{Asked, Core};
use flow_model::Entry;
use flow_record::Command;
use flow_reply::{print_answer, print_look};
use std::alloc::{AllocError, Global};

/// Gives the caller's command to the run.
pub(crate) fn give<R: Asked>(
    alloc: Global,
    run: &mut R,
    command: Command,
    by: u32,
) -> Result<Stepped, AllocError>
    requires { R.can_be_asked run.old }
    ensures { IfOk result (Gives R.run R.answers R.is_same by run.old command) }
{
    match command {
        Command::Ask(ask) => ask_run(alloc, run, ask, by),
        Command::Look(look) => look_at(alloc, run, look),
    }
}

/// Asks the run one thing.
fn ask_run<R: Asked>(alloc: Global, run: &mut R, ask: Ask, by: u32) -> Result<Stepped, AllocError>
    requires { R.can_be_asked run.old }
    ensures { IfOk result (Gives R.run R.answers R.is_same by run.old (Asks ask)) }
{
    let before = run.core().history().len();
    let answer = run.answer(ask, by);
    let entry = entry_at(run.core(), before);
    let reply = print_answer(alloc, run.core(), ask, &answer)?;
    match answer {
        Ok(_) => {
            run.look_ahead();
            Ok(Stepped::Made {
                entry,
                reply,
                next: run.core().enabled(alloc)?,
            })
        }
        Err(refusal) => Ok(Stepped::Refused {
            refusal,
            entry,
            reply,
        }),
    }
}

/// The entry at that place of the history, if there is one.
fn entry_at(core: &Core, place: usize) -> Option<Entry>
    ensures entry { result ≡ slice_get core.now.history place }
    ensures lawful { IsLawful (schema core.now) core.now.limit core.now.history }
{
    core.history().get(place).copied()
}

/// Shows something of the run.
fn look_at<R: Asked>(alloc: Global, run: &mut R, look: Look) -> Result<Stepped, AllocError>
    ensures { IfOk result (λ stepped. (by : ℕ) → Gives R.run R.answers R.is_same by run.old (Looks look) stepped) }
{
    run.look_ahead();
    // brings what the run keeps: its history is lawful
    let _ = run.core().history();
    let reply = print_look(alloc, run.core(), look)?;
    Ok(Stepped::Made {
        entry: None,
        reply,
        next: run.core().enabled(alloc)?,
    })
}
