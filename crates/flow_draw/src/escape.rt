ghost use Rattle.std.specs.Prelude.{◌≡◌, ◌++◌, OnOk};
ghost use Rattle.flow_draw.specs.Escape.{in_svg, in_mermaid, in_dot, escaped_byte, escaped, quoted_byte, quoted};

use crate::format::Format;
use std::alloc::AllocError;

/// Adds bytes to a text of that form, so that they are read there as they are.
pub fn push_escaped(text: &mut Vec<u8>, format: Format, bytes: &[u8]) -> Result<(), AllocError>
    ensures { OnOk result (text.new.items ≡ text.old.items ++ escaped format bytes.now) }
{
    for byte in bytes {
        push_escaped_byte(text, format, *byte)?;
    }
    Ok(())
}

fn push_escaped_byte(text: &mut Vec<u8>, format: Format, byte: u8) -> Result<(), AllocError>
    ensures { OnOk result (text.new.items ≡ text.old.items ++ escaped_byte format byte) }
{
    match format {
        Format::Svg => push_in_svg(text, byte),
        Format::Mermaid => push_in_mermaid(text, byte),
        Format::Dot => push_in_dot(text, byte),
    }
}

fn push_in_svg(text: &mut Vec<u8>, byte: u8) -> Result<(), AllocError>
    ensures { OnOk result (text.new.items ≡ text.old.items ++ in_svg byte) }
{
    match byte {
        b'&' => text.extend_from_slice(b"&amp;"),
        b'<' => text.extend_from_slice(b"&lt;"),
        b'>' => text.extend_from_slice(b"&gt;"),
        b'"' => text.extend_from_slice(b"&quot;"),
        _ => text.extend_from_slice(&[byte]),
    }
}

fn push_in_mermaid(text: &mut Vec<u8>, byte: u8) -> Result<(), AllocError>
    ensures { OnOk result (text.new.items ≡ text.old.items ++ in_mermaid byte) }
{
    match byte {
        b'"' => text.extend_from_slice(b"#quot;"),
        b'#' => text.extend_from_slice(b"#35;"),
        b'&' => text.extend_from_slice(b"#amp;"),
        b'<' => text.extend_from_slice(b"#lt;"),
        b'>' => text.extend_from_slice(b"#gt;"),
        _ => text.extend_from_slice(&[byte]),
    }
}

fn push_in_dot(text: &mut Vec<u8>, byte: u8) -> Result<(), AllocError>
    ensures { OnOk result (text.new.items ≡ text.old.items ++ in_dot byte) }
{
    match byte {
        b'"' => text.extend_from_slice(b"\\\""),
        b'\\' => text.extend_from_slice(b"\\\\"),
        b'&' => text.extend_from_slice(b"&amp;"),
        _ => text.extend_from_slice(&[byte]),
    }
}

/// Adds bytes to a line of YAML, in whose double quotes they are read as they are. What ends a line, or is no letter, is a blank there.
pub fn push_quoted(text: &mut Vec<u8>, bytes: &[u8]) -> Result<(), AllocError>
    ensures { OnOk result (text.new.items ≡ text.old.items ++ quoted bytes.now) }
{
    for byte in bytes {
        push_quoted_byte(text, *byte)?;
    }
    Ok(())
}

fn push_quoted_byte(text: &mut Vec<u8>, byte: u8) -> Result<(), AllocError>
    ensures { OnOk result (text.new.items ≡ text.old.items ++ quoted_byte byte) }
{
    match byte {
        b'"' => text.extend_from_slice(b"\\\""),
        b'\\' => text.extend_from_slice(b"\\\\"),
        0..32 => text.extend_from_slice(b" "),
        _ => text.extend_from_slice(&[byte]),
    }
}
