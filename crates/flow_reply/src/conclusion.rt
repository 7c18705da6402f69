ghost use Rattle.std.specs.Prelude.{◌≡◌, IfOk};
ghost use Rattle.std.specs.String.{string_bytes};
ghost use Rattle.flow_reply.specs.Conclusion.{meaning_of, Means, verdict_text};

use crate::verdict::Verdict;
use crate::words::{print_number, print_numbers, print_word};
use flow_core::{Core, End};
use std::alloc::{AllocError, Global};

/// What a run came to: its verdict, with all leaves that wait where it is stuck.
#[derive(Drop)]
pub enum Conclusion {
    Committed,
    /// The history is as long as the limit.
    Spent,
    /// The task of this leaf failed, which every execution needs.
    NoOther(u32),
    /// Nothing is left but these leaves, which wait.
    Stuck(Vec<u32>),
    Unfinished,
}

impl Conclusion {
    /// Prints the verdict in words.
    pub fn print(&self, alloc: Global) -> Result<String, AllocError>
        ensures { IfOk result (λ text. string_bytes text ≡ verdict_text (meaning_of self.now)) }
    {
        match self {
            Conclusion::Committed => print_word(alloc, "committed"),
            Conclusion::Spent => print_word(alloc, "spent"),
            Conclusion::NoOther(leaf) => print_number(alloc, "no-other ", *leaf),
            Conclusion::Stuck(waiting) => print_numbers(alloc, "stuck", waiting),
            Conclusion::Unfinished => print_word(alloc, "unfinished"),
        }
    }
}

/// What a run came to that has the verdict.
pub fn conclusion_of(
    alloc: Global,
    core: &Core,
    verdict: &Verdict,
) -> Result<Conclusion, AllocError>
    ensures { IfOk result (λ conclusion. Means core.now verdict.now (meaning_of conclusion)) }
{
    match *verdict {
        Verdict::Ended(End::Committed) => Ok(Conclusion::Committed),
        Verdict::Ended(End::Spent) => Ok(Conclusion::Spent),
        Verdict::Ended(End::NoOther(leaf)) => Ok(Conclusion::NoOther(leaf)),
        Verdict::Ended(End::Stuck) => Ok(Conclusion::Stuck(core.waiting(alloc)?)),
        Verdict::Unfinished => Ok(Conclusion::Unfinished),
    }
}
