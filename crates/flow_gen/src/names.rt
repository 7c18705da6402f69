ghost use Rattle.std.specs.Prelude.{◌≡◌, IfOk};
ghost use Rattle.flow_gen.specs.Generated.{event_name};

use flow_form::Name;
use itoa::Buffer;
use std::alloc::{AllocError, Global};

/// The name of an event by its number.
pub(crate) fn name_of(alloc: Global, event: u32) -> Result<Name, AllocError>
    ensures { IfOk result (λ name. name ≡ event_name event) }
{
    let mut digits = Buffer::new();
    let mut text = Vec::from_slice(alloc, b"e")?;
    text.extend_from_slice(digits.format(event).as_bytes())?;
    Name::new(alloc, &text)
}
