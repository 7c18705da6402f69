ghost use Rattle.std.specs.Prelude.{◌≡◌, length, min, take, drop};

// Copies the front of `from` over the front of `to`, as much as fits, and says how much.
pub(crate) fn copy_front(from: &[u8], to: &mut [u8]) -> usize
    ensures count { result ≡ min (length from.now) (length to.old) }
    ensures front { take result to.new ≡ take result from.now }
    ensures rest { drop result to.new ≡ drop result to.old }
{
    let count = from.len().min(to.len());
    to[..count].copy_from_slice(&from[..count]);
    count
}
