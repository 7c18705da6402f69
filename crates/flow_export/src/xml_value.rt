ghost use Rattle.std.specs.Prelude.{◌≡◌, ◌++◌, OnOk};
ghost use Rattle.flow_export.specs.Value.{ends_noncharacter, value_byte, value_from, value_text};

use flow_draw::{Format, push_escaped};
use std::alloc::AllocError;

/// Adds a text as the value of an attribute of XML. A reader reads it as it is; what XML has no place for goes by a sign.
pub(crate) fn push_value(text: &mut Vec<u8>, value: &[u8]) -> Result<(), AllocError>
    ensures { OnOk result (text.new.items ≡ text.old.items ++ value_text value.now) }
{
    let mut first = 0;
    let mut second = 0;
    for byte in value {
        push_value_byte(text, first, second, *byte)?;
        first = second;
        second = *byte;
    }
    Ok(())
}

/// Adds a byte, by the two in front of it.
fn push_value_byte(text: &mut Vec<u8>, first: u8, second: u8, byte: u8) -> Result<(), AllocError>
    ensures { OnOk result (text.new.items ≡ text.old.items ++ value_byte first second byte) }
{
    if ends_noncharacter(first, second, byte) {
        return text.extend_from_slice(&[0xBD]);
    }
    match byte {
        b'\t' => text.extend_from_slice(b"&#9;"),
        b'\n' => text.extend_from_slice(b"&#10;"),
        b'\r' => text.extend_from_slice(b"&#13;"),
        0..=31 => text.extend_from_slice(&[0xE2, 0x90, 0x80 + byte]),
        _ => push_escaped(text, Format::Svg, &[byte]),
    }
}

/// Whether the byte ends U+FFFE or U+FFFF, behind these two.
fn ends_noncharacter(first: u8, second: u8, byte: u8) -> bool
    ensures { result ≡ ends_noncharacter first second byte }
{
    first == 0xEF && second == 0xBF && (byte == 0xBE || byte == 0xBF)
}
