ghost use Rattle.std.specs.Prelude.{◌≡◌, ◌++◌, IfOk, OnOk};
ghost use Rattle.flow_event_log.specs.Spelling.{is_blank, is_kept, spelled_byte, spelling};

use std::alloc::{AllocError, Global};

/// A name as events are written: letters and digits kept, small, blanks as `_`; all else is left out.
pub fn spelled(alloc: Global, name: &[u8]) -> Result<Vec<u8>, AllocError>
    ensures { IfOk result (λ text. text.items ≡ spelling name.now) }
{
    let mut text = Vec::with_capacity(alloc, name.len())?;
    for byte in name {
        push_spelled(&mut text, *byte)?;
    }
    Ok(text)
}

/// Whether a byte is kept, but for the size of its letter.
fn is_kept(byte: u8) -> bool
    ensures { result ≡ is_kept byte }
{
    byte.is_ascii_alphanumeric() || byte == b'_' || byte >= 0x80
}

/// Whether a byte is a blank.
fn is_blank(byte: u8) -> bool
    ensures { result ≡ is_blank byte }
{
    byte == b' ' || byte == b'\t'
}

/// Adds what a byte is spelled as.
fn push_spelled(text: &mut Vec<u8>, byte: u8) -> Result<(), AllocError>
    ensures { OnOk result (text.new.items ≡ text.old.items ++ spelled_byte byte) }
{
    if is_kept(byte) {
        text.push(byte.to_ascii_lowercase())?;
    } else if is_blank(byte) {
        text.push(b'_')?;
    }
    Ok(())
}
