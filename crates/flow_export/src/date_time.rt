ghost use Rattle.std.specs.Prelude.{◌≡◌, ◌≤◌};
ghost use Rattle.flow_export.specs.DateTime.{fits, has_shape, digit_at, two_at, year_of, is_leap, days_in, is_day, is_time, is_offset, is_zone, is_parts, is_rest, is_date_time};

/// Whether the text is a moment as XML Schema writes it, with a zone, as `2026-11-30T14:02:11Z` is.
pub(crate) fn is_date_time(text: &[u8]) -> bool
    ensures { result ≡ is_date_time text.now }
{
    if text.len() < 19 {
        return false;
    }
    let (front, rest) = text.split_at(19);
    has_shape(b"0000-00-00T00:00:00", front) && is_day(text) && is_time(text) && is_rest(rest)
}

/// Whether the text has that shape: a digit where the shape has a 0, else the byte of the shape.
#[tactic(auto, unfolding(crate::specs::DateTime::has_shape))]
fn has_shape(shape: &[u8], text: &[u8]) -> bool
    ensures { result ≡ has_shape shape.now text.now }
{
    match shape {
        [] => match text {
            [] => true,
            [_, ..] => false,
        },
        [mark, marks @ ..] => match text {
            [] => false,
            [byte, bytes @ ..] => fits(*mark, *byte) && has_shape(marks, bytes),
        },
    }
}

fn fits(mark: u8, byte: u8) -> bool
    ensures { result ≡ fits mark byte }
{
    if mark == b'0' {
        byte.is_ascii_digit()
    } else {
        byte == mark
    }
}

/// The digit at a place, as a number.
fn digit_at(text: &[u8], place: usize) -> u32
    ensures value { result ≡ digit_at text.now place }
    ensures bound { result ≤ 207 }
{
    u32::from(
        text.get(place)
            .copied()
            .unwrap_or(b'0')
            .saturating_sub(b'0'),
    )
}

/// The number that two digits write.
fn two_at(text: &[u8], place: usize) -> u32
    requires { place ≤ 18 }
    ensures value { result ≡ two_at text.now place }
    ensures bound { result ≤ 2277 }
{
    10 * digit_at(text, place) + digit_at(text, place + 1)
}

fn year_of(text: &[u8]) -> u32
    ensures { result ≡ year_of text.now }
{
    100 * two_at(text, 0) + two_at(text, 2)
}

fn is_leap(year: u32) -> bool
    ensures { result ≡ is_leap year }
{
    year % 4 == 0 && (year % 100 != 0 || year % 400 == 0)
}

/// How many days a month has.
fn days_in(year: u32, month: u32) -> u32
    ensures { result ≡ days_in year month }
{
    match month {
        4 | 6 | 9 | 11 => 30,
        2 => 28 + u32::from(is_leap(year)),
        _ => 31,
    }
}

/// Whether there is such a day.
#[tactic(auto, unfolding(crate::specs::DateTime::is_day))]
fn is_day(text: &[u8]) -> bool
    ensures { result ≡ is_day text.now }
{
    let year = year_of(text);
    let month = two_at(text, 5);
    let day = two_at(text, 8);
    0 < year && 0 < month && month < 13 && 0 < day && day <= days_in(year, month)
}

/// Whether there is such a time of a day.
#[tactic(auto, unfolding(crate::specs::DateTime::is_time))]
fn is_time(text: &[u8]) -> bool
    ensures { result ≡ is_time text.now }
{
    two_at(text, 11) < 24 && two_at(text, 14) < 60 && two_at(text, 17) < 60
}

/// Whether the text is a zone by its hours and minutes, at most 14 hours from UTC.
#[tactic(auto, unfolding(crate::specs::DateTime::is_offset))]
fn is_offset(text: &[u8]) -> bool
    ensures { result ≡ is_offset text.now }
{
    (has_shape(b"+00:00", text) || has_shape(b"-00:00", text))
        && two_at(text, 4) < 60
        && 100 * two_at(text, 1) + two_at(text, 4) <= 1400
}

#[tactic(auto, unfolding(crate::specs::DateTime::is_zone))]
fn is_zone(text: &[u8]) -> bool
    ensures { result ≡ is_zone text.now }
{
    has_shape(b"Z", text) || is_offset(text)
}

/// Whether the text is one digit or more, parts of a second, and a zone.
#[tactic(auto, unfolding(crate::specs::DateTime::is_parts))]
fn is_parts(text: &[u8]) -> bool
    ensures { result ≡ is_parts text.now }
{
    let mut rest = text;
    while let Some((byte, bytes)) = rest.split_first() {
        if !byte.is_ascii_digit() {
            return false;
        }
        if is_zone(bytes) {
            return true;
        }
        rest = bytes;
    }
    false
}

/// Whether the text is what stands behind the seconds.
#[tactic(auto, unfolding(crate::specs::DateTime::is_rest))]
fn is_rest(text: &[u8]) -> bool
    ensures { result ≡ is_rest text.now }
{
    match text {
        [] => false,
        [byte, parts @ ..] => {
            if *byte == b'.' {
                is_parts(parts)
            } else {
                is_zone(text)
            }
        }
    }
}
