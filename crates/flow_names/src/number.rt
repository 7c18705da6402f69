ghost use Rattle.std.specs.Prelude.{◌≡◌};
ghost use Rattle.flow_record.specs.Number.{number_of, value_with};

/// The number that a word is, if it is one.
pub(crate) fn read_number(word: &[u8]) -> Option<u32>
    ensures { result ≡ number_of word.now }
{
    if word.is_empty() || word.len() > 10 {
        return None;
    }
    let mut value = 0;
    for byte in word {
        value = value_with(value, *byte)?;
    }
    Some(value)
}

/// The value with one digit more, if the byte is a digit and the value stays a `u32`.
fn value_with(value: u32, byte: u8) -> Option<u32>
    ensures { result ≡ value_with value byte }
{
    if byte.is_ascii_digit() {
        value.checked_mul(10)?.checked_add((byte - b'0') as u32)
    } else {
        None
    }
}
