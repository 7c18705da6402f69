ghost use Rattle.std.specs.Prelude.{◌≡◌, ◌<◌, ◌+◌, take, IfOk, IfSome};

use std::alloc::Global;
use std::io::{self, Read};

/// Reads a file to its end, but no more of it than one byte over the limit: so much shows that it is too long.
pub fn read_front<R: Read + Drop>(alloc: Global, file: R, limit: usize) -> io::Result<Vec<u8>>
    requires { limit < usize.MAX }
    ensures { IfOk result (λ bytes. IfSome (R.remaining file) (λ all. bytes.items ≡ take (limit + 1) all)) }
{
    let mut front = file.take(limit as u64 + 1);
    let mut bytes = Vec::new(alloc);
    front.read_to_end(&mut bytes)?;
    Ok(bytes)
}
