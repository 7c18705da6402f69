ghost use Rattle.std.specs.Prelude.{◌≡◌, ◌++◌, OnOk};
ghost use Rattle.flow_export.specs.Literal.{literal_byte, quoted, literal_text};

use std::alloc::AllocError;

/// Adds a text as a literal of SQL, in quotes.
#[tactic(auto, unfolding(crate::specs::Literal::literal_text))]
pub(crate) fn push_literal(text: &mut Vec<u8>, value: &[u8]) -> Result<(), AllocError>
    ensures { OnOk result (text.new.items ≡ text.old.items ++ literal_text value.now) }
{
    text.extend_from_slice(b"'")?;
    push_quoted(text, value)?;
    text.extend_from_slice(b"'")
}

/// Adds what stands between the quotes.
fn push_quoted(text: &mut Vec<u8>, value: &[u8]) -> Result<(), AllocError>
    ensures { OnOk result (text.new.items ≡ text.old.items ++ quoted value.now) }
{
    for byte in value {
        push_literal_byte(text, *byte)?;
    }
    Ok(())
}

fn push_literal_byte(text: &mut Vec<u8>, byte: u8) -> Result<(), AllocError>
    ensures { OnOk result (text.new.items ≡ text.old.items ++ literal_byte byte) }
{
    match byte {
        b'\'' => text.extend_from_slice(b"''"),
        0 => text.extend_from_slice("\u{2400}".as_bytes()),
        _ => text.extend_from_slice(&[byte]),
    }
}
