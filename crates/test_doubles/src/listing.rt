ghost use Rattle.std.specs.Prelude.{◌↔◌, IsTrue, Contains};

// Whether the call of this number is one of those listed.
pub(crate) fn is_listed(listed: &[u32], call: u64) -> bool
    ensures { IsTrue result ↔ Contains listed.now call }
{
    listed.iter().any(|number| u64::from(*number) == call)
}
