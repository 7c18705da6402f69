//! Where a picture is cut into rows: through no box, no bar, no caption and no number.

ghost use Rattle.std.specs.Prelude.{◌≡◌, ◌<◌, ◌≤◌, ◌⊎◌, ◌+◌, ◌++◌, ℕ, map, IfOk, OnOk};
ghost use Rattle.std.specs.List.{flat_map};
ghost use Rattle.flow_svg.specs.Courses.{courses_in};
ghost use Rattle.flow_svg.specs.Cuts.{caption_letters, shape_spans, number_span, end_spans, spans_in, span_at, IsClear, IsRowEnd, AreCuts, AreRows};

use crate::courses::Course;
use crate::orders::number_place;
use flow_draw::below;
use flow_view::{Frame, Picture, Shape};
use std::alloc::{AllocError, Global};

/// What no cut goes through: the places between its ends.
#[derive(Clone, Copy)]
pub(crate) struct Span {
    pub(crate) left: u64,
    pub(crate) right: u64,
}

fn caption_letters(frame: Frame) -> u32
    ensures { result ≡ caption_letters frame }
{
    match frame {
        Frame::Iso => 3,
        Frame::Called(_, letters) => letters,
    }
}

/// Adds what is not cut of a shape.
fn push_shape_spans(spans: &mut Vec<Span>, shape: Shape) -> Result<(), AllocError>
    ensures { OnOk result (spans.new.items ≡ spans.old.items ++ shape_spans shape) }
{
    match shape {
        Shape::Leaf(_, place) => {
            spans.push(Span {
                left: place.left as u64 + 8,
                right: place.right as u64 + 24,
            })?;
        }
        Shape::Bar(_, place) => {
            spans.push(Span {
                left: place.left as u64 + 6,
                right: place.right as u64 + 26,
            })?;
        }
        Shape::Frame(frame, place) => {
            let head = 8 * caption_letters(frame) as u64;
            spans.push(Span {
                left: place.left as u64 + 8,
                right: place.left as u64 + 32 + head,
            })?;
            spans.push(Span {
                left: place.right as u64 + 8,
                right: place.right as u64 + 24,
            })?;
        }
        Shape::Line(_, _, _) => {}
    }
    Ok(())
}

/// Adds what is not cut of shapes.
fn push_shapes_spans(spans: &mut Vec<Span>, shapes: &[Shape]) -> Result<(), AllocError>
    ensures { OnOk result (spans.new.items ≡ spans.old.items ++ flat_map shape_spans shapes.now) }
{
    for shape in shapes {
        push_shape_spans(spans, *shape)?;
    }
    Ok(())
}

/// Adds the numbers of constraints on their arrows.
fn push_number_spans(spans: &mut Vec<Span>, courses: &[Course]) -> Result<(), AllocError>
    ensures { OnOk result (spans.new.items ≡ spans.old.items ++ map number_span courses.now) }
{
    for course in courses {
        spans.push(number_span(course)?)?;
    }
    Ok(())
}

fn number_span(course: &Course) -> Result<Span, AllocError>
    ensures { IfOk result (λ span. span ≡ number_span course.now) }
{
    let place = number_place(course)?;
    Ok(Span {
        left: below(place, 6)?,
        right: below(place, 26)?,
    })
}

/// Adds where a picture begins and ends.
fn push_end_spans(spans: &mut Vec<Span>, width: u32) -> Result<(), AllocError>
    ensures { OnOk result (spans.new.items ≡ spans.old.items ++ end_spans width) }
{
    spans.push(Span { left: 0, right: 28 })?;
    spans.push(Span {
        left: width as u64 + 4,
        right: width as u64 + 32,
    })?;
    Ok(())
}

/// What no cut of a picture goes through, whose arrows go so.
fn spans_in(alloc: Global, picture: &Picture, courses: &[Course]) -> Result<Vec<Span>, AllocError>
    requires { courses.now ≡ courses_in picture.now }
    ensures { IfOk result (λ spans. spans.items ≡ spans_in picture.now) }
{
    let mut spans = Vec::new(alloc);
    push_end_spans(&mut spans, picture.width)?;
    push_shapes_spans(&mut spans, &picture.shapes)?;
    push_number_spans(&mut spans, courses)?;
    Ok(spans)
}

/// The first span that has the place between its ends.
fn span_at(spans: &[Span], place: u64) -> Option<Span>
    ensures { result ≡ span_at spans.now place }
{
    for span in spans {
        if span.left < place && place < span.right {
            return Some(*span);
        }
    }
    None
}

/// The last clear place behind the start and up to the limit; the start where there is none.
fn last_clear(spans: &[Span], start: u64, limit: u64) -> u64
    requires { start ≤ limit }
    ensures from { start ≤ result }
    ensures within { result ≤ limit }
    ensures clear { start < result → IsClear spans.now result }
    ensures last { (x : ℕ) → result < x → x ≤ limit → ¬ (IsClear spans.now x) }
{
    let mut place = limit;
    'back: while place > start {
        match span_at(spans, place) {
            Some(span) => place = span.left,
            None => return place,
        }
    }
    start
}

/// The first clear place from there on, or the end.
fn first_clear(spans: &[Span], from: u64, end: u64) -> u64
    requires { from ≤ end }
    ensures from { from ≤ result }
    ensures within { result ≤ end }
    ensures clear { (result ≡ end) ⊎ IsClear spans.now result }
    ensures first { (x : ℕ) → from ≤ x → x < result → ¬ (IsClear spans.now x) }
{
    let mut place = from;
    'on: while place < end {
        match span_at(spans, place) {
            Some(span) => place = span.right,
            None => return place,
        }
    }
    end
}

/// Where the row ends that begins there.
fn row_end(spans: &[Span], width: u64, end: u64, start: u64) -> u64
    requires { start < end }
    ensures cut { IsRowEnd spans.now width end start result }
    ensures behind { start < result }
    ensures within { result ≤ end }
{
    if end - start <= width {
        return end;
    }
    let limit = start + width;
    let cut = last_clear(spans, start, limit);
    if cut > start {
        cut
    } else {
        first_clear(spans, limit + 1, end)
    }
}

/// The places at which rows end.
fn cuts_of(alloc: Global, spans: &[Span], width: u64, end: u64) -> Result<Vec<u64>, AllocError>
    ensures { IfOk result (λ cuts. AreCuts spans.now width end 0 cuts.items) }
{
    let mut cuts = Vec::new(alloc);
    let mut start = 0;
    'rows: while start < end {
        start = row_end(spans, width, end, start);
        cuts.push(start)?;
    }
    Ok(cuts)
}

/// The ends of the rows of a picture that is folded, whose arrows go so. One that is not folded has none.
pub(crate) fn rows_of(
    alloc: Global,
    picture: &Picture,
    courses: &[Course],
    fold: Option<u32>,
) -> Result<Vec<u64>, AllocError>
    requires { courses.now ≡ courses_in picture.now }
    ensures { IfOk result (λ cuts. AreRows picture.now fold cuts.items) }
{
    match fold {
        Some(width) => {
            let spans = spans_in(alloc, picture, courses)?;
            cuts_of(alloc, &spans, width as u64, picture.width as u64 + 32)
        }
        None => Ok(Vec::new(alloc)),
    }
}
