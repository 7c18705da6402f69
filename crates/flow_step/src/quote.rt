//! Texts and numbers as JSON has them.
ghost use Rattle.std.specs.Prelude.{◌≡◌, ◌++◌, ◌∷◌, [], codes, IfOk, OnOk};
ghost use Rattle.hex.specs.Hex.{encode_lower};
ghost use Rattle.std.specs.List.{flat_map};
ghost use Rattle.std.specs.Fmt.{decimal};
ghost use Rattle.flow_step.specs.Json.{quoted_byte, quoted, listed, without_end};

use itoa::Buffer;
use std::alloc::{AllocError, Global};

/// Prints a text between quotation marks.
pub(crate) fn print_quoted(alloc: Global, text: &[u8]) -> Result<Vec<u8>, AllocError>
    ensures { IfOk result (λ printed. printed.items ≡ quoted text.now) }
{
    let mut printed = Vec::from_slice(alloc, b"\"")?;
    push_bytes(alloc, &mut printed, text)?;
    printed.extend_from_slice(b"\"")?;
    Ok(printed)
}

/// Adds bytes, each as it stands in a text.
fn push_bytes(alloc: Global, printed: &mut Vec<u8>, bytes: &[u8]) -> Result<(), AllocError>
    ensures { OnOk result (printed.new.items ≡ printed.old.items ++ flat_map quoted_byte bytes.now) }
{
    for byte in bytes {
        push_byte(alloc, printed, *byte)?;
    }
    Ok(())
}

fn push_byte(alloc: Global, printed: &mut Vec<u8>, byte: u8) -> Result<(), AllocError>
    ensures { OnOk result (printed.new.items ≡ printed.old.items ++ quoted_byte byte) }
{
    match byte {
        b'"' => printed.extend_from_slice(b"\\\""),
        b'\\' => printed.extend_from_slice(b"\\\\"),
        b'\n' => printed.extend_from_slice(b"\\n"),
        32..=126 => printed.extend_from_slice(&[byte]),
        _ => push_number_of(alloc, printed, byte),
    }
}

/// Adds a byte by its number.
fn push_number_of(alloc: Global, printed: &mut Vec<u8>, byte: u8) -> Result<(), AllocError>
    ensures { OnOk result (printed.new.items ≡ printed.old.items ++ (codes "\\u00" ++ encode_lower (byte ∷ []))) }
{
    let digits = hex::encode(alloc, [byte])?;
    printed.extend_from_slice(b"\\u00")?;
    printed.extend_from_slice(digits.as_bytes())
}

/// Prints numbers between commas.
pub(crate) fn print_listed(alloc: Global, numbers: &[u32]) -> Result<Vec<u8>, AllocError>
    ensures { IfOk result (λ printed. printed.items ≡ listed numbers.now) }
{
    let mut printed = Vec::new(alloc);
    if let Some((first, others)) = numbers.split_first() {
        let mut digits = Buffer::new();
        printed.extend_from_slice(digits.format(*first).as_bytes())?;
        push_others(&mut printed, others)?;
    }
    Ok(printed)
}

/// Adds numbers, each after a comma.
fn push_others(printed: &mut Vec<u8>, numbers: &[u32]) -> Result<(), AllocError>
    ensures { OnOk result (printed.new.items ≡ printed.old.items ++ flat_map (λ other. codes "," ++ decimal other) numbers.now) }
{
    for number in numbers {
        push_other(printed, *number)?;
    }
    Ok(())
}

fn push_other(printed: &mut Vec<u8>, number: u32) -> Result<(), AllocError>
    ensures { OnOk result (printed.new.items ≡ printed.old.items ++ (codes "," ++ decimal number)) }
{
    let mut digits = Buffer::new();
    printed.extend_from_slice(b",")?;
    printed.extend_from_slice(digits.format(number).as_bytes())
}

/// The text without the line feed at its end.
pub(crate) fn without_end(text: &[u8]) -> &[u8]
    ensures { result.now ≡ without_end text.now }
{
    let count = text.len();
    if count > 0 && text[count - 1] == b'\n' {
        &text[..count - 1]
    } else {
        text
    }
}
