ghost use Rattle.std.specs.Prelude.{◌≡◌, map, IfOk};
ghost use Rattle.std.specs.Fmt.{decimal};
ghost use Rattle.flow_desk.specs.Noted.{noted_text, noted_texts};

use flow_draw::text_at;
use flow_facts::Name;
use itoa::Buffer;
use std::alloc::{AllocError, Global};

/// What a box shows: behind its own text the note, if there is one.
fn noted_box(alloc: Global, text: &Name, note: &[u8]) -> Result<Name, AllocError>
    ensures { IfOk result (λ shown. shown ≡ noted_text text.now note.now) }
{
    if note.is_empty() {
        return Name::new(alloc, text.bytes());
    }
    let mut shown = Vec::from_slice(alloc, text.bytes())?;
    shown.extend_from_slice(b": ")?;
    shown.extend_from_slice(note)?;
    Name::new(alloc, &shown)
}

/// What boxes show with their notes.
pub(crate) fn noted_boxes(
    alloc: Global,
    boxes: &[Name],
    notes: &[Name],
) -> Result<Vec<Name>, AllocError>
    ensures { IfOk result (λ shown. shown.items ≡ noted_texts notes.now boxes.now) }
{
    let mut shown = Vec::with_capacity(alloc, boxes.len())?;
    for place in 0..boxes.len() {
        shown.push(noted_box(alloc, &boxes[place], text_at(notes, place))?)?;
    }
    Ok(shown)
}

/// Counts as notes, by the numbers of the leaves.
pub fn count_notes(alloc: Global, counts: &[u64]) -> Result<Vec<Name>, AllocError>
    ensures { IfOk result (λ notes. notes.items ≡ map decimal counts.now) }
{
    let mut notes = Vec::new(alloc);
    for count in counts {
        notes.push(count_note(alloc, *count)?)?;
    }
    Ok(notes)
}

fn count_note(alloc: Global, count: u64) -> Result<Name, AllocError>
    ensures { IfOk result (λ note. note ≡ decimal count) }
{
    let mut digits = Buffer::new();
    Name::new(alloc, digits.format(count).as_bytes())
}
