ghost use Rattle.std.specs.Prelude.{◌<◌, ◌≤◌, IfSome};

/// A time in microseconds since the year 0.
#[derive(Clone, Copy)]
pub(crate) struct Moment {
    pub(crate) microseconds: u64,
    /// Whether the text gives a zone. Else the time is of a clock on some wall.
    pub(crate) zoned: bool,
}

/// What is left of a text that is read from its front.
#[derive(Drop)]
struct Front<'a>(&'a [u8]);

impl<'a> Front<'a> {
    /// Takes that byte, if it comes next.
    fn skip(&mut self, byte: u8) -> bool {
        match self.0 {
            [first, rest @ ..] if *first == byte => {
                self.0 = rest;
                true
            }
            _ => false,
        }
    }

    /// Takes a digit, if one comes next.
    fn digit(&mut self) -> Option<u64>
        ensures { IfSome result (λ digit. digit < 10) }
    {
        match self.0 {
            [first, rest @ ..] if first.is_ascii_digit() => {
                self.0 = rest;
                Some(u64::from(*first).wrapping_sub(48) % 10)
            }
            _ => None,
        }
    }

    /// A number of two digits in that range.
    fn two_digits(&mut self, least: u64, most: u64) -> Option<u64>
        ensures { IfSome result (λ number. number ≤ most) }
    {
        let tens = self.digit()?;
        let number = tens * 10 + self.digit()?;
        if number < least || number > most {
            return None;
        }
        Some(number)
    }

    /// A number of four digits.
    fn year(&mut self) -> Option<u64>
        ensures { IfSome result (λ year. year < 10000) }
    {
        let thousands = self.digit()?;
        let hundreds = self.digit()?;
        let tens = self.digit()?;
        let ones = self.digit()?;
        Some(thousands * 1000 + hundreds * 100 + tens * 10 + ones)
    }

    /// Digits behind a point as microseconds. Those behind the sixth count for nothing.
    fn fraction(&mut self) -> u64
        ensures { result ≤ 1000000 }
    {
        let mut worth = 100_000u64;
        let mut total = 0u64;
        'digits: for _digit in 0..self.0.len() {
            let Some(digit) = self.digit() else {
                break;
            };
            total = (total + digit * worth).min(1_000_000);
            worth /= 10;
        }
        total
    }
}

/// How many days of a year come before its month.
const DAYS_BEFORE: [u64; 13] = [0, 0, 31, 59, 90, 120, 151, 181, 212, 243, 273, 304, 334];

/// The days from the first of the year 0 to a day.
fn days_to(year: u64, month: u64, day: u64) -> u64
    requires year { year < 10000 }
    requires month { month ≤ 12 }
    requires day { day ≤ 31 }
    ensures { result < 4000000 }
{
    let leaps = (year + 3) / 4 + (year + 399) / 400;
    let full_years = (year * 365 + leaps).saturating_sub((year + 99) / 100);
    let leap = year % 4 == 0 && (year % 100 != 0 || year % 400 == 0);
    let leap_day = if leap && month > 2 { 1 } else { 0 };
    let before = DAYS_BEFORE[month as usize].min(400);
    (full_years + before + leap_day + day).min(3_999_999)
}

/// The seconds of a day at its hour, minute and second; 0 where there is no hour.
fn clock_in(front: &mut Front<'_>) -> Option<u64>
    ensures { IfSome result (λ time. time ≤ 90000000000) }
{
    if !front.skip(b'T') && !front.skip(b't') && !front.skip(b' ') {
        return Some(0);
    }
    let hour = front.two_digits(0, 23)?;
    if !front.skip(b':') {
        return None;
    }
    let minutes = hour * 60 + front.two_digits(0, 59)?;
    if !front.skip(b':') {
        return Some(minutes * 60_000_000);
    }
    let seconds = minutes * 60 + front.two_digits(0, 60)?;
    let fraction = if front.skip(b'.') || front.skip(b',') {
        front.fraction()
    } else {
        0
    };
    Some(seconds * 1_000_000 + fraction)
}

/// By how many minutes a zone's clock is ahead of the clock of UTC, plus a day; nothing where no zone is given.
fn zone_in(front: &mut Front<'_>) -> Option<Option<u64>>
    ensures { IfSome result (λ zone. IfSome zone (λ minutes. minutes ≤ 2880)) }
{
    if front.0.is_empty() {
        return Some(None);
    }
    if front.skip(b'Z') || front.skip(b'z') {
        return Some(Some(1440));
    }
    let ahead = front.skip(b'+');
    if !ahead && !front.skip(b'-') {
        return None;
    }
    let hours = front.two_digits(0, 23)?;
    let _colon = front.skip(b':');
    let minutes = if front.0.is_empty() {
        hours * 60
    } else {
        hours * 60 + front.two_digits(0, 59)?
    };
    if ahead {
        Some(Some(1440 + minutes))
    } else {
        Some(Some(1440u64.saturating_sub(minutes)))
    }
}

/// How many bytes a date has.
const DATE: usize = 10;

/// The days from the first of the year 0 to the date that a text says.
fn days_in(date: &[u8]) -> Option<u64> {
    let mut front = Front(date);
    let year = front.year()?;
    let slashes = front.skip(b'/');
    if !slashes && !front.skip(b'-') {
        return None;
    }
    let month = front.two_digits(1, 12)?;
    if !front.skip(if slashes { b'/' } else { b'-' }) {
        return None;
    }
    let day = front.two_digits(1, 31)?;
    Some(days_to(year, month, day))
}

/// The time on a day that a text says: nothing, or a time of the day and mostly a zone.
fn moment_on(days: u64, behind: &[u8]) -> Option<Moment> {
    let mut front = Front(behind);
    let clock = clock_in(&mut front)?;
    let zone = zone_in(&mut front)?;
    if !front.0.is_empty() {
        return None;
    }
    let local = days.min(3_999_999) * 86_400_000_000 + clock;
    Some(Moment {
        // a day more than it is, so that no zone leads below 0
        microseconds: local + 172_800_000_000 - zone.unwrap_or(0).min(2880) * 60_000_000,
        zoned: zone.is_some(),
    })
}

/// How long a text is at most that is kept.
const LONGEST: usize = 32;

/// Reads times. Mostly a text is the one before it, or has the date of that: what was read of it is not read again.
#[derive(Clone, Copy)]
pub(crate) struct Dates {
    /// The text that came last, and what it says.
    text: [u8; LONGEST],
    size: usize,
    moment: Moment,
    /// The date that came last, and the days to it.
    date: [u8; DATE],
    days: u64,
}

impl Dates {
    /// No date came.
    pub(crate) fn new() -> Dates {
        Dates {
            text: [0; LONGEST],
            size: 0,
            moment: Moment {
                microseconds: 0,
                zoned: false,
            },
            date: [0; DATE],
            days: 0,
        }
    }

    /// Whether the text is the one that came last.
    fn is_last(&self, text: &[u8]) -> bool {
        text.len() >= DATE
            && text.len() == self.size
            && text == &self.text[..self.size.min(LONGEST)]
    }

    /// Keeps what a text says, if the text is short.
    fn keep(&mut self, text: &[u8], moment: Moment) {
        if text.len() <= LONGEST {
            self.text[..text.len()].copy_from_slice(text);
            self.size = text.len();
            self.moment = moment;
        }
    }

    /// The time that a text says that is not the one before it.
    fn read(&mut self, text: &[u8]) -> Option<Moment> {
        if text.len() < DATE {
            return None;
        }
        let (date, behind) = text.split_at(DATE);
        if date != &self.date[..] {
            self.days = days_in(date)?;
            self.date.copy_from_slice(date);
        }
        moment_on(self.days, behind)
    }

    /// The time that a text says: a date, and mostly a time of the day and a zone, as ISO 8601 writes them.
    pub(crate) fn moment_in(&mut self, text: &[u8]) -> Option<Moment> {
        if self.is_last(text) {
            return Some(self.moment);
        }
        let moment = self.read(text)?;
        self.keep(text, moment);
        Some(moment)
    }
}
