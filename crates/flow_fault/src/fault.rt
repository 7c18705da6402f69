ghost use Rattle.std.specs.Prelude.{◌≡◌, ◌≤◌, ◌+◌, length, slice_index};
ghost use Rattle.std.specs.List.{prefix_len};
ghost use Rattle.flow_fault.specs.Fault.{is_blank, is_first, is_spelled, text_place, hint_of, IsFault};

use crate::hint::{Hint, byte_hint, token_hint, wanted_hint};
use crate::keywords::is_keyword_near;
use crate::met::{Met, met_at};
use crate::spot::{Spot, spot_of};
use flow_form::{TextRefusal, Wanted};

/// What is wrong with a text: where, what stands there, and what may help.
#[derive(Clone, Copy)]
pub struct Fault<'a> {
    pub spot: Spot<'a>,
    pub met: Met<'a>,
    pub hint: Option<Hint>,
}

fn is_blank(byte: u8) -> bool
    ensures { result ≡ is_blank byte }
{
    byte == b' ' || byte == b'\t'
}

/// How many blanks and tabs begin the line.
fn blanks(line: &[u8]) -> usize
    ensures value { result ≡ prefix_len is_blank line.now }
    ensures within { result ≤ length line.now }
{
    line.iter().take_while(|byte| is_blank(**byte)).count()
}

/// Whether nothing but blanks and tabs stands before the place on its line.
fn is_first(spot: Spot<'_>) -> bool
    ensures { result ≡ is_first spot.entry.text.now spot.entry.column }
{
    spot.column <= blanks(spot.text) + 1
}

/// Whether what is met is a name that is spelled nearly as a word that is wanted.
fn is_spelled(wanted: Wanted, met: Met<'_>) -> bool
    ensures { result ≡ is_spelled wanted met.entry }
{
    match met {
        Met::Name(word) => is_keyword_near(wanted, word),
        _ => false,
    }
}

/// The byte at a place, or 0 behind the end.
fn byte_at(text: &[u8], place: usize) -> u8
    ensures { result ≡ slice_index text.now place }
{
    match text.get(place) {
        Some(byte) => *byte,
        None => 0,
    }
}

/// The place of a refusal in its text, or the end.
fn text_place(text: &[u8], refusal: &TextRefusal) -> usize
    ensures place { result ≡ text_place text.now refusal.now }
    ensures within { result ≤ length text.now }
{
    match refusal {
        TextRefusal::NotAscii { place }
        | TextRefusal::BadToken { place }
        | TextRefusal::Expected { place, .. }
        | TextRefusal::Unknown { place, .. }
        | TextRefusal::Repeated { place, .. }
        | TextRefusal::TooDeep { place } => text.len().min(*place),
        TextRefusal::NoMemory => text.len(),
    }
}

/// The hint of a refusal, of which that is met, at that spot and place.
fn hint_of(
    text: &[u8],
    place: usize,
    refusal: &TextRefusal,
    spot: Spot<'_>,
    met: Met<'_>,
) -> Option<Hint>
    requires { place ≤ length text.now }
    ensures { result ≡ hint_of text.now place refusal.now spot.entry met.entry }
{
    match refusal {
        TextRefusal::NotAscii { .. } => Some(byte_hint(text, place)),
        TextRefusal::BadToken { .. } => token_hint(byte_at(text, place), byte_at(text, place + 1)),
        TextRefusal::Expected { kind, .. } => wanted_hint(
            *kind,
            met,
            is_first(spot),
            is_spelled(*kind, met),
        ),
        _ => None,
    }
}

/// What is wrong where a text is refused. A refusal for want of memory points at its end.
pub fn fault_of<'a>(text: &'a [u8], refusal: &TextRefusal) -> Fault<'a>
    ensures { IsFault text.entry.now refusal.now result }
{
    let place = text_place(text, refusal);
    let spot = spot_of(text, place);
    let met = met_at(text, place);
    Fault {
        spot,
        met,
        hint: hint_of(text, place, refusal, spot, met),
    }
}
