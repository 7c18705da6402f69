ghost use Rattle.std.specs.Prelude.{◌≡◌, ◌<◌, ◌↔◌, ℕ, IsTrue, IfOk, OnOk};
ghost use Rattle.flow_model.specs.Lists.{◌∈◌};
ghost use Rattle.flow_policy_lint.specs.Findings.{ArePairs, AddsPairs};

use std::alloc::{AllocError, Global};

/// What is asked of each two events, by their numbers.
pub(crate) trait PairQuestion {
    // It is so of the two events.
    ghost is_so: { Self → ℕ → ℕ → Type 0 };

    /// Whether it is so of the two events.
    fn ask(&self, alloc: Global, one: u32, two: u32) -> Result<bool, AllocError>
        ensures { IfOk result (λ so. IsTrue so ↔ is_so self.now one two) };
}

/// Adds the first event with each second one below that number with which it is so.
fn add_pairs<Q: PairQuestion>(
    alloc: Global,
    found: &mut Vec<(u32, u32)>,
    question: &Q,
    one: u32,
    count: u32,
) -> Result<(), AllocError>
    ensures { OnOk result (AddsPairs (Q.is_so question.now) one count found.old.items found.new.items) }
{
    for two in 0..count {
        if question.ask(alloc, one, two)? {
            found.push((one, two))?;
        }
    }
    Ok(())
}

/// Each two events below that number of which it is so.
pub(crate) fn pairs<Q: PairQuestion>(
    alloc: Global,
    question: &Q,
    count: u32,
) -> Result<Vec<(u32, u32)>, AllocError>
    ensures { IfOk result (λ found. ArePairs (Q.is_so question.now) count count found.items) }
{
    let mut found = Vec::new(alloc);
    for one in 0..count {
        add_pairs(alloc, &mut found, question, one, count)?;
    }
    Ok(found)
}
