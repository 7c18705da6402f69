ghost use Rattle.std.specs.Prelude.{◌≡◌, ◌<◌, IfOk};
ghost use Rattle.flow_model.specs.Lists.{Each};
ghost use Rattle.flow_gen.specs.Generated.{drawn, draws};

use std::alloc::{AllocError, Global};

const MODULUS: u32 = 65_537;

fn draw(last: u32) -> u32
    requires { last < MODULUS }
    ensures below { result < MODULUS }
    ensures drawn { result ≡ drawn last }
{
    (75 * last + 74) % MODULUS
}

/// So many numbers, each drawn after the one before, and the first after the seed.
pub(crate) fn draw_all(alloc: Global, seed: u32, count: usize) -> Result<Vec<u32>, AllocError>
    requires { seed < MODULUS }
    ensures { IfOk result (λ numbers. numbers.items ≡ draws seed count) }
{
    let mut numbers = Vec::new(alloc);
    let mut last = seed;
    for _ in 0..count {
        last = draw(last);
        numbers.push(last)?;
    }
    Ok(numbers)
}
