//! What a call asks for, by its words.

use flow_case_state::CaseState;

/// The longest span that is read, in days, hours or minutes.
const MOST: u32 = 1_000_000;

/// How many seconds a unit has.
fn unit_called(name: u8) -> Option<u64> {
    match name {
        b'd' => Some(86_400),
        b'h' => Some(3_600),
        b'm' => Some(60),
        _ => None,
    }
}

/// The number that the digits write, up to the most that is read.
fn number_in(digits: &[u8]) -> Option<u32> {
    if digits.is_empty() {
        return None;
    }
    let mut number = 0u32;
    for byte in digits {
        let digit = byte.wrapping_sub(b'0');
        if digit > 9 || number > MOST {
            return None;
        }
        number = number.saturating_mul(10).saturating_add(u32::from(digit));
    }
    if number > MOST { None } else { Some(number) }
}

/// How many seconds a span has: a number of days, hours or minutes, as `2d`, `12h` or `30m`.
pub fn seconds_in(span: &str) -> Option<u64> {
    let (last, digits) = span.as_bytes().split_last()?;
    let unit = unit_called(*last)?;
    let number = number_in(digits)?;
    Some(u64::from(number).saturating_mul(unit))
}

/// The state of that word.
pub fn state_called(word: &str) -> Option<CaseState> {
    match word {
        "open" => Some(CaseState::Open),
        "waiting" => Some(CaseState::Waiting),
        "finished" => Some(CaseState::Finished),
        "stuck" => Some(CaseState::StuckByFacts),
        "stuck_by_duties" => Some(CaseState::StuckByDuties),
        "committed" => Some(CaseState::Committed),
        _ => None,
    }
}
