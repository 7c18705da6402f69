ghost use Rattle.std.specs.Prelude.{◌≡◌, ◌++◌, ℕ, List, codes, IfOk};
ghost use Rattle.flow_ask.specs.declared.ask.Look.TheVariants as look;
ghost use Rattle.flow_reply.specs.Look.{IsShown};
ghost use Rattle.flow_reply.specs.Words.{numbers_text};

use crate::facts::print_facts;
use crate::words::{print_number, print_numbers, print_word, with_bytes};
use flow_ask::Look;
use flow_core::{Core, Next};
use std::alloc::{AllocError, Global};

/// Prints what a look shows of the run. Leaves, claims and facts go by their numbers; lists rise, but the journal's.
pub fn print_look(alloc: Global, core: &Core, look: Look) -> Result<Vec<u8>, AllocError>
    ensures { IfOk result (λ text. IsShown core.now look text.items) }
{
    match look {
        Look::Next => print_next(alloc, core),
        Look::Enabled => print_listed(alloc, "enabled", core.enabled(alloc)?),
        Look::Journal => Ok(print_numbers(alloc, "journal", core.journal())?.into_bytes()),
        Look::Facts => {
            let held = core.held(alloc)?;
            print_facts(alloc, core.workflow(), &held)
        }
    }
}

/// Prints the line of what a look shows of the run.
pub fn look_line(alloc: Global, core: &Core, look: Look) -> Result<Vec<u8>, AllocError>
    ensures { IfOk result (λ line. (text : List ℕ) × IsShown core.now look text × (line.items ≡ text ++ codes "\n")) }
{
    with_bytes(print_look(alloc, core, look)?, b"\n")
}

/// Prints what the run can do next.
fn print_next(alloc: Global, core: &Core) -> Result<Vec<u8>, AllocError>
    ensures { IfOk result (λ text. IsShown core.now look.Next text.items) }
{
    let text = match core.next() {
        Next::Act(leaf) => print_number(alloc, "act ", leaf),
        Next::Wait(claim) => print_number(alloc, "wait ", claim),
        Next::Finished => print_word(alloc, "finished"),
        Next::Stuck(_) => return print_listed(alloc, "stuck", core.waiting(alloc)?),
        Next::Ended => print_word(alloc, "ended"),
    };
    Ok(text?.into_bytes())
}

/// Prints a word, and the numbers after it.
fn print_listed(alloc: Global, word: &str, numbers: Vec<u32>) -> Result<Vec<u8>, AllocError>
    ensures { IfOk result (λ text. text.items ≡ numbers_text word.now numbers.items) }
{
    let text = print_numbers(alloc, word, &numbers);
    drop(numbers);
    Ok(text?.into_bytes())
}
