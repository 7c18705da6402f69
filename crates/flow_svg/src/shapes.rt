ghost use Rattle.std.specs.Prelude.{◌≡◌, ◌+◌, ◌/◌, ◌++◌, OnOk};
ghost use Rattle.flow_svg.specs.Shapes.{middle, center, leaf_head, leaf_line, label_drop, mark_text, frame_line, group_text, frame_class, bar_line, sides_class, sign_text, lozenge_text, level_line, shape_line, shape_lines};

use crate::element::{Words, push_rect, push_words};
use flow_draw::{Piece, frame_caption, mark_at, mark_word, push_pieces, text_at};
use flow_view::{Frame, Labels, Mark, Place, Shape, Sides};
use std::alloc::AllocError;

/// Adds a line for each shape.
pub(crate) fn push_shapes(
    text: &mut Vec<u8>,
    shapes: &[Shape],
    labels: &Labels,
    marks: &[Mark],
) -> Result<(), AllocError>
    ensures { OnOk result (text.new.items ≡ text.old.items ++ shape_lines labels.now marks.now shapes.now) }
{
    for shape in shapes {
        push_shape(text, *shape, labels, marks)?;
    }
    Ok(())
}

fn push_shape(
    text: &mut Vec<u8>,
    shape: Shape,
    labels: &Labels,
    marks: &[Mark],
) -> Result<(), AllocError>
    ensures { OnOk result (text.new.items ≡ text.old.items ++ shape_line labels.now marks.now shape) }
{
    match shape {
        Shape::Leaf(leaf, place) => {
            let label = text_at(&labels.boxes, leaf as usize);
            push_leaf(text, leaf, &place, label, mark_at(marks, leaf))
        }
        Shape::Frame(frame, place) => {
            push_frame(text, frame, &place, frame_caption(labels, frame))
        }
        Shape::Bar(sides, place) => push_bar(text, sides, &place),
        Shape::Line(left, right, at) => push_level(text, left, right, at),
    }
}

/// How far to the right the middle of a place is.
fn middle(place: &Place) -> u64
    ensures { result ≡ middle place.now }
{
    (place.left as u64 + place.right as u64) / 2
}

/// How far down the middle of a place is.
fn center(place: &Place) -> u64
    ensures { result ≡ center place.now }
{
    (place.top as u64 + place.bottom as u64) / 2
}

/// Adds the box of a leaf. Where a run stands at it is its class, and a word in the box.
#[tactic(auto, unfolding(crate::specs::Shapes::leaf_line))]
fn push_leaf(
    text: &mut Vec<u8>,
    leaf: u32,
    place: &Place,
    label: &[u8],
    mark: Mark,
) -> Result<(), AllocError>
    ensures { OnOk result (text.new.items ≡ text.old.items ++ leaf_line leaf place.now label.now mark) }
{
    push_leaf_head(text, leaf, mark_word(mark))?;
    push_rect(text, place, 6)?;
    push_words(
        text,
        &Words {
            class: b"label",
            x: middle(place),
            y: place.top as u64,
            down: label_drop(mark),
            words: label,
        },
    )?;
    push_mark(text, place, mark)?;
    text.extend_from_slice(b"</g>\n")
}

#[tactic(auto, unfolding(crate::specs::Shapes::leaf_head))]
fn push_leaf_head(text: &mut Vec<u8>, leaf: u32, word: &[u8]) -> Result<(), AllocError>
    ensures { OnOk result (text.new.items ≡ text.old.items ++ leaf_head leaf word.now) }
{
    push_pieces(
        text,
        &[
            Piece::Words(b"<g id=\"leaf-"),
            Piece::Number(leaf as u64),
            Piece::Words(b"\" class=\"leaf "),
            Piece::Words(word),
            Piece::Words(b"\">"),
        ],
    )
}

/// How far below the upper edge of its box a label stands: higher where a mark's word stands under it.
fn label_drop(mark: Mark) -> u64
    ensures { result ≡ label_drop mark }
{
    match mark {
        Mark::Plain => 25,
        _ => 18,
    }
}

fn push_mark(text: &mut Vec<u8>, place: &Place, mark: Mark) -> Result<(), AllocError>
    ensures { OnOk result (text.new.items ≡ text.old.items ++ mark_text place.now mark) }
{
    if let Mark::Plain = mark {
        return Ok(());
    }
    push_words(
        text,
        &Words {
            class: b"mark",
            x: middle(place),
            y: place.top as u64,
            down: 34,
            words: mark_word(mark),
        },
    )
}

fn frame_class(frame: Frame) -> &'static [u8]
    ensures { result.now ≡ frame_class frame }
{
    match frame {
        Frame::Iso => b"iso",
        Frame::Called(_, _) => b"flow",
    }
}

#[tactic(auto, unfolding(crate::specs::Shapes::frame_line))]
fn push_frame(
    text: &mut Vec<u8>,
    frame: Frame,
    place: &Place,
    caption: &[u8],
) -> Result<(), AllocError>
    ensures { OnOk result (text.new.items ≡ text.old.items ++ frame_line frame place.now caption.now) }
{
    push_group(text, b"frame", frame_class(frame))?;
    push_rect(text, place, 8)?;
    push_words(
        text,
        &Words {
            class: b"caption",
            x: place.left as u64 + 10,
            y: place.top as u64,
            down: 14,
            words: caption,
        },
    )?;
    text.extend_from_slice(b"</g>\n")
}

/// Adds the head of a group.
#[tactic(auto, unfolding(crate::specs::Shapes::group_text))]
fn push_group(
    text: &mut Vec<u8>,
    family: &'static [u8],
    kind: &'static [u8],
) -> Result<(), AllocError>
    ensures { OnOk result (text.new.items ≡ text.old.items ++ group_text family.now kind.now) }
{
    push_pieces(
        text,
        &[
            Piece::Words(b"<g class=\""),
            Piece::Words(family),
            Piece::Words(b" "),
            Piece::Words(kind),
            Piece::Words(b"\">"),
        ],
    )
}

/// Adds a bar: all sides meet at a full one, and one side is chosen at a hollow one with a lozenge.
fn push_bar(text: &mut Vec<u8>, sides: Sides, place: &Place) -> Result<(), AllocError>
    ensures { OnOk result (text.new.items ≡ text.old.items ++ bar_line sides place.now) }
{
    push_group(text, b"bar", sides_class(sides))?;
    push_rect(text, place, 4)?;
    push_sign(text, sides, middle(place), center(place))?;
    text.extend_from_slice(b"</g>\n")
}

fn sides_class(sides: Sides) -> &'static [u8]
    ensures { result.now ≡ sides_class sides }
{
    match sides {
        Sides::Beside => b"beside",
        Sides::Either => b"either",
    }
}

fn push_sign(text: &mut Vec<u8>, sides: Sides, x: u64, y: u64) -> Result<(), AllocError>
    ensures { OnOk result (text.new.items ≡ text.old.items ++ sign_text sides x y) }
{
    match sides {
        Sides::Beside => Ok(()),
        Sides::Either => push_lozenge(text, x, y),
    }
}

/// Adds a lozenge with the sign of a choice.
#[tactic(auto, unfolding(crate::specs::Shapes::lozenge_text))]
fn push_lozenge(text: &mut Vec<u8>, x: u64, y: u64) -> Result<(), AllocError>
    ensures { OnOk result (text.new.items ≡ text.old.items ++ lozenge_text x y) }
{
    push_pieces(
        text,
        &[
            Piece::Words(b"<path d=\"M"),
            Piece::Number(x),
            Piece::Words(b" "),
            Piece::Number(y),
            Piece::Words(b"m0 -12l12 12l-12 12l-12 -12z\"/><text x=\""),
            Piece::Number(x),
            Piece::Words(b"\" y=\""),
            Piece::Number(y),
            Piece::Words(b"\" dy=\"5\">+</text>"),
        ],
    )
}

#[tactic(auto, unfolding(crate::specs::Shapes::level_line))]
fn push_level(text: &mut Vec<u8>, left: u32, right: u32, at: u32) -> Result<(), AllocError>
    ensures { OnOk result (text.new.items ≡ text.old.items ++ level_line left right at) }
{
    push_pieces(
        text,
        &[
            Piece::Words(b"<path class=\"line\" d=\"M"),
            Piece::Number(left as u64),
            Piece::Words(b" "),
            Piece::Number(at as u64),
            Piece::Words(b"H"),
            Piece::Number(right as u64),
            Piece::Words(b"\"/>\n"),
        ],
    )
}
