ghost use Rattle.std.specs.Prelude.{◌≡◌, ◌<◌, ◌↔◌, ℕ, IsTrue, IfOk};
ghost use Rattle.flow_model.specs.Verdict.{AreJust};
ghost use Rattle.flow_lint.specs.Finding.{IsOneOf};

use std::alloc::{AllocError, Global};

/// What is asked of each thing of a kind, by its number.
pub(crate) trait Question {
    // How many things there are.
    ghost size: { Self → ℕ };

    // It is so of the thing of that number.
    ghost is_so: { Self → ℕ → Type 0 };

    /// How many things there are.
    fn count(&self) -> usize
        ensures { result ≡ size self.now };

    /// Whether it is so of the thing of that number.
    fn ask(&self, alloc: Global, number: u32) -> Result<bool, AllocError>
        requires { number < size self.now }
        ensures { IfOk result (λ so. IsTrue so ↔ is_so self.now number) };
}

/// The numbers of the things of which it is so. More things than have numbers are refused as want of memory, which a text cannot hold
/// either.
pub(crate) fn those<Q: Question>(alloc: Global, question: &Q) -> Result<Vec<u32>, AllocError>
    ensures { IfOk result (λ numbers. AreJust (IsOneOf (Q.size question.now) (Q.is_so question.now)) numbers.items) }
{
    let Ok(count) = u32::try_from(question.count()) else {
        return Err(AllocError);
    };
    let mut numbers = Vec::new(alloc);
    for number in 0..count {
        if question.ask(alloc, number)? {
            numbers.push(number)?;
        }
    }
    Ok(numbers)
}
