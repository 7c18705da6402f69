ghost use Rattle.std.specs.Prelude.{◌≡◌, ◌++◌, ◌+◌, IfOk, OnOk};
ghost use Rattle.flow_svg.specs.Lines.{wrapped, lines_text};
ghost use Rattle.flow_svg.specs.Page.{head_text, look_text, heading_height, heading_width, name_text, named_text, heading_open, heading_text, page_text, ends_text};

use crate::lines::push_lines;
use crate::style::STYLE;
use flow_draw::{Format, Piece, below, push_pieces};
use std::alloc::{AllocError, Global};

/// Prints a page of a title and a body that is so wide and so high.
pub(crate) fn print_page(
    alloc: Global,
    title: &[u8],
    width: u64,
    height: u64,
    body: &[u8],
) -> Result<Vec<u8>, AllocError>
    ensures { IfOk result (λ text. text.items ≡ page_text title.now width height body.now) }
{
    let mut heading = Vec::new(alloc);
    let high = push_heading(alloc, &mut heading, title)?;
    let mut text = Vec::new(alloc);
    push_front(
        &mut text,
        title,
        below(high, 16)?,
        width,
        below(height, high)?,
    )?;
    text.extend_from_slice(&heading)?;
    text.extend_from_slice(body)?;
    text.extend_from_slice(b"</svg>\n")?;
    Ok(text)
}

/// Adds what stands in front of all that is seen: how large the page is, what it is, and how it looks.
fn push_front(
    text: &mut Vec<u8>,
    title: &[u8],
    above: u64,
    width: u64,
    height: u64,
) -> Result<(), AllocError>
    ensures { OnOk result (text.new.items ≡ text.old.items ++ head_text above width height ++ named_text title.now ++ look_text above width height) }
{
    push_head(text, above, width, height)?;
    if !title.is_empty() {
        push_name(text, title)?;
    }
    push_look(text, above, width, height)
}

#[tactic(auto, unfolding(crate::specs::Page::head_text))]
fn push_head(text: &mut Vec<u8>, above: u64, width: u64, height: u64) -> Result<(), AllocError>
    ensures { OnOk result (text.new.items ≡ text.old.items ++ head_text above width height) }
{
    push_pieces(
        text,
        &[
            Piece::Words(b"<svg xmlns=\"http://www.w3.org/2000/svg\" width=\""),
            Piece::Number(width),
            Piece::Words(b"\" height=\""),
            Piece::Number(height),
            Piece::Words(b"\" viewBox=\"-16 -"),
            Piece::Number(above),
            Piece::Words(b" "),
            Piece::Number(width),
            Piece::Words(b" "),
            Piece::Number(height),
            Piece::Words(b"\" style=\"max-width:100%;height:auto\" role=\"img\">\n"),
        ],
    )
}

#[tactic(auto, unfolding(crate::specs::Page::name_text))]
fn push_name(text: &mut Vec<u8>, title: &[u8]) -> Result<(), AllocError>
    ensures { OnOk result (text.new.items ≡ text.old.items ++ name_text title.now) }
{
    push_pieces(
        text,
        &[
            Piece::Words(b"<title>"),
            Piece::Escaped(Format::Svg, title),
            Piece::Words(b"</title>\n"),
        ],
    )
}

#[tactic(auto, unfolding(crate::specs::Page::look_text))]
fn push_look(text: &mut Vec<u8>, above: u64, width: u64, height: u64) -> Result<(), AllocError>
    ensures { OnOk result (text.new.items ≡ text.old.items ++ look_text above width height) }
{
    push_pieces(
        text,
        &[
            Piece::Words(STYLE),
            Piece::Words(b"<rect class=\"page\" x=\"-16\" y=\"-"),
            Piece::Number(above),
            Piece::Words(b"\" width=\""),
            Piece::Number(width),
            Piece::Words(b"\" height=\""),
            Piece::Number(height),
            Piece::Words(b"\"/>\n"),
        ],
    )
}

/// Adds the title over the picture, where there is one, and gives how high it is.
fn push_heading(alloc: Global, text: &mut Vec<u8>, title: &[u8]) -> Result<u64, AllocError>
    ensures text { OnOk result (text.new.items ≡ text.old.items ++ heading_text title.now) }
    ensures high { IfOk result (λ high. high ≡ heading_height title.now) }
{
    if title.is_empty() {
        return Ok(0);
    }
    let mut lines = Vec::new(alloc);
    let high = push_lines(&mut lines, 0, title)?;
    push_heading_open(text, high)?;
    text.extend_from_slice(&lines)?;
    text.extend_from_slice(b"</g>\n")?;
    Ok(high)
}

#[tactic(auto, unfolding(crate::specs::Page::heading_open))]
fn push_heading_open(text: &mut Vec<u8>, high: u64) -> Result<(), AllocError>
    ensures { OnOk result (text.new.items ≡ text.old.items ++ heading_open high) }
{
    push_pieces(
        text,
        &[
            Piece::Words(b"<g class=\"title\" transform=\"translate(-40 -"),
            Piece::Number(high),
            Piece::Words(b")\">\n"),
        ],
    )
}

/// How wide the title is.
pub(crate) fn heading_width(title: &[u8]) -> u64
    ensures { result ≡ heading_width title.now }
{
    9 * (title.len() as u64).min(120)
}

/// Adds where a picture begins and ends: a dot at its left edge, and a ring at its right one.
#[tactic(auto, unfolding(crate::specs::Page::ends_text))]
pub(crate) fn push_ends(text: &mut Vec<u8>, right: u64, axis: u64) -> Result<(), AllocError>
    ensures { OnOk result (text.new.items ≡ text.old.items ++ ends_text right axis) }
{
    push_pieces(
        text,
        &[
            Piece::Words(b"<circle class=\"start\" cx=\"0\" cy=\""),
            Piece::Number(axis),
            Piece::Words(b"\" r=\"6\"/><circle class=\"start\" cx=\""),
            Piece::Number(right),
            Piece::Words(b"\" cy=\""),
            Piece::Number(axis),
            Piece::Words(b"\" r=\"4\"/><circle class=\"end\" cx=\""),
            Piece::Number(right),
            Piece::Words(b"\" cy=\""),
            Piece::Number(axis),
            Piece::Words(b"\" r=\"7\"/>\n"),
        ],
    )
}
