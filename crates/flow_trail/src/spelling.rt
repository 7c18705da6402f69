//! Texts between the quotes of a JSON string, with one spelling each.
ghost use Rattle.std.specs.Prelude.{◌≡◌, ◌++◌, ◌<◌, ◌≤◌, IfOk, OnOk, IsTrue};
ghost use Rattle.flow_trail.specs.Spelling.{is_escaped, hex_digit, spelt_byte, spelt, digit_value, given, behind, unspelt, HasDigit};

use std::alloc::{AllocError, Global};

/// Where a reader of a spelt text is: outside of an escape, or in front of that part of one.
#[derive(Clone, Copy)]
pub(crate) enum Escape {
    Out,
    Letter,
    FirstZero,
    SecondZero,
    High,
    /// The second hex digit comes next; the first has this value.
    Low(u8),
}

/// Adds what stands between the quotes for a text.
pub(crate) fn push_spelt(text: &mut Vec<u8>, said: &[u8]) -> Result<(), AllocError>
    ensures { OnOk result (text.new.items ≡ text.old.items ++ spelt said.now) }
{
    for byte in said {
        push_spelt_byte(text, *byte)?;
    }
    Ok(())
}

fn push_spelt_byte(text: &mut Vec<u8>, byte: u8) -> Result<(), AllocError>
    ensures { OnOk result (text.new.items ≡ text.old.items ++ spelt_byte byte) }
{
    if is_escaped(byte) {
        let digits = [
            b'\\',
            b'u',
            b'0',
            b'0',
            hex_digit(byte / 16),
            hex_digit(byte % 16),
        ];
        text.extend_from_slice(&digits)
    } else {
        text.extend_from_slice(&[byte])
    }
}

/// Whether the byte is spelt by its number: a control byte, a quote or a backslash.
fn is_escaped(byte: u8) -> bool
    ensures { result ≡ is_escaped byte }
{
    byte < 32 || byte == b'"' || byte == b'\\'
}

fn hex_digit(value: u8) -> u8
    requires { value < 16 }
    ensures { result ≡ hex_digit value }
{
    if value < 10 { 48 + value } else { 87 + value }
}

/// What a spelt text says. Of a text that is spelt otherwise it says something too.
pub(crate) fn unspelt(alloc: Global, text: &[u8]) -> Result<Vec<u8>, AllocError>
    ensures { IfOk result (λ said. said.items ≡ unspelt text.now) }
{
    let mut said = Vec::new(alloc);
    let mut escape = Escape::Out;
    for byte in text {
        push_given(&mut said, escape, *byte)?;
        escape = behind(escape, *byte);
    }
    Ok(said)
}

/// Adds what a byte gives.
fn push_given(said: &mut Vec<u8>, escape: Escape, byte: u8) -> Result<(), AllocError>
    requires { HasDigit escape }
    ensures { OnOk result (said.new.items ≡ said.old.items ++ given byte escape) }
{
    match escape {
        Escape::Out => if byte == b'\\' {
            Ok(())
        } else {
            said.extend_from_slice(&[byte])
        },
        Escape::Low(high) => said.extend_from_slice(&[high * 16 + digit_value(byte)]),
        _ => Ok(()),
    }
}

/// Where a reader is behind the byte.
fn behind(escape: Escape, byte: u8) -> Escape
    ensures next { result ≡ behind byte escape }
    ensures digit { HasDigit result }
{
    match escape {
        Escape::Out => if byte == b'\\' {
            Escape::Letter
        } else {
            Escape::Out
        },
        Escape::Letter => Escape::FirstZero,
        Escape::FirstZero => Escape::SecondZero,
        Escape::SecondZero => Escape::High,
        Escape::High => Escape::Low(digit_value(byte)),
        Escape::Low(_) => Escape::Out,
    }
}

/// The value of a hex digit, at most 15 for any byte.
fn digit_value(byte: u8) -> u8
    ensures value { result ≡ digit_value byte }
    ensures digit { result ≤ 15 }
{
    if byte < 58 {
        byte.saturating_sub(48)
    } else {
        byte.saturating_sub(87).min(15)
    }
}
