ghost use Rattle.std.specs.Prelude.{◌≡◌, ◌-◌, ◌<◌, ◌^◌, ◌↔◌, min, IsSome, IfSome};
ghost use Rattle.flow_lex.specs.Bytes.{number_value, kept_with};

/// The value with one digit more, kept at the greatest `u64` where it is more.
fn with_digit(value: u64, digit: u8) -> u64
    ensures { result ≡ kept_with value digit }
{
    value
        .saturating_mul(10)
        .saturating_add(u64::from(digit.saturating_sub(b'0')))
}

/// The value of decimal digits, kept at the greatest `u64` where it is more.
#[tactic(auto, using(crate::proofs::KeptValues::kept_value, crate::proofs::KeptValues::kept_more, std::proofs::lemmas::List::drop_all))]
fn kept_value(digits: &[u8]) -> u64
    ensures { result ≡ min (number_value digits.now) (2 ^ 64 - 1) }
{
    let mut value = 0;
    for digit in digits {
        value = with_digit(value, *digit);
    }
    value
}

/// The number that decimal digits write. Zeros in front change nothing. `None` where it has more than 32 bits.
pub fn number(digits: &[u8]) -> Option<u32>
    ensures some { IsSome result ↔ (number_value digits.now < 2 ^ 32) }
    ensures value { IfSome result (λ n. n ≡ number_value digits.now) }
{
    u32::try_from(kept_value(digits)).ok()
}
