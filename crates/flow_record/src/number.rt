ghost use Rattle.std.specs.Prelude.{◌≡◌, ◌++◌, codes, OnOk, OnErr};
ghost use Rattle.std.specs.String.{string_bytes};
ghost use Rattle.std.specs.Fmt.{decimal};
ghost use Rattle.flow_record.specs.Number.{number_of, plain_number, value_with, spaced_numbers};

use itoa::Buffer;
use std::alloc::AllocError;

/// The number that a word is, if it is one.
pub(crate) fn read_number(word: &[u8]) -> Option<u32>
    ensures { result ≡ number_of word.now }
{
    if word.is_empty() || word.len() > 10 {
        return None;
    }
    let mut value = 0;
    for byte in word {
        value = value_with(value, *byte)?;
    }
    Some(value)
}

/// The number that a word is, if it is one in its one spelling: without leading zeros.
pub(crate) fn plain_number(word: &[u8]) -> Option<u32>
    ensures { result ≡ plain_number word.now }
{
    match word {
        [b'0', _, ..] => None,
        _ => read_number(word),
    }
}

/// The value with one digit more, if the byte is a digit and the value stays a `u32`.
fn value_with(value: u32, byte: u8) -> Option<u32>
    ensures { result ≡ value_with value byte }
{
    if byte.is_ascii_digit() {
        value.checked_mul(10)?.checked_add((byte - b'0') as u32)
    } else {
        None
    }
}

/// Adds the numbers to a text, each after a blank. Where there is no memory, the text is as it was.
pub fn push_numbers(text: &mut String, numbers: &[u32]) -> Result<(), AllocError>
    ensures ok { OnOk result (string_bytes text.new ≡ string_bytes text.old ++ spaced_numbers numbers.now) }
    ensures err { OnErr result (string_bytes text.new ≡ string_bytes text.old) }
{
    let before = text.len();
    for number in numbers {
        if push_number(text, *number).is_err() {
            text.truncate(before);
            return Err(AllocError);
        }
    }
    Ok(())
}

/// Adds a blank and the number to a text. Where there is no memory, the text is as it was.
fn push_number(text: &mut String, number: u32) -> Result<(), AllocError>
    ensures ok { OnOk result (string_bytes text.new ≡ string_bytes text.old ++ (codes " " ++ decimal number)) }
    ensures err { OnErr result (string_bytes text.new ≡ string_bytes text.old) }
{
    let before = text.len();
    text.push_str(" ")?;
    let mut digits = Buffer::new();
    let pushed = text.push_str(digits.format(number));
    if pushed.is_err() {
        text.truncate(before);
    }
    pushed
}
