ghost use Rattle.std.specs.Prelude.{◌≡◌, ◌++◌, OnOk, IfOk};
ghost use Rattle.std.specs.Fmt.{decimal};
ghost use Rattle.flow_view.specs.Texts.{shown_of};

use crate::size::MOST_SHOWN;
use std::alloc::{AllocError, Global};

/// What is shown of a text: all of it, or its beginning and two dots. It takes as long for every text.
pub fn shown(alloc: Global, text: &[u8]) -> Result<Vec<u8>, AllocError>
    ensures { IfOk result (λ shown. shown.items ≡ shown_of text.now) }
{
    let mut shown = Vec::new(alloc);
    if text.len() <= MOST_SHOWN {
        shown.extend_from_slice(text)?;
    } else {
        shown.extend_from_slice(&text[..MOST_SHOWN - 2])?;
        shown.extend_from_slice(b"..")?;
    }
    Ok(shown)
}
