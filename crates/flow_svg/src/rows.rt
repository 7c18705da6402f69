//! The rows of a picture that is folded.

ghost use Rattle.std.specs.Prelude.{◌≡◌, ◌+◌, ◌++◌, IfOk, OnOk};
ghost use Rattle.flow_svg.specs.Rows.{row_text, rows_text, rows_end, widest, unseen, shown_in_rows, folded_text, folded_bottom, folded_width};

use flow_draw::{Piece, below, push_pieces};
use std::alloc::AllocError;

/// What stands before a drawing that is not seen by itself.
pub(crate) const UNSEEN: &[u8] = b"<defs>\n<g id=\"picture\" transform=\"translate(16 0)\">\n";

/// What stands behind it.
pub(crate) const UNSEEN_END: &[u8] = b"</g>\n</defs>\n";

/// Adds a row at a height, that shows so much of the picture from a place on.
#[tactic(auto, unfolding(crate::specs::Rows::row_text))]
fn push_row(text: &mut Vec<u8>, y: u64, high: u64, start: u64, wide: u64) -> Result<(), AllocError>
    ensures { OnOk result (text.new.items ≡ text.old.items ++ row_text y high start wide) }
{
    push_pieces(
        text,
        &[
            Piece::Words(b"<svg x=\"-16\" y=\""),
            Piece::Number(y),
            Piece::Words(b"\" width=\""),
            Piece::Number(wide),
            Piece::Words(b"\" height=\""),
            Piece::Number(high),
            Piece::Words(b"\" viewBox=\""),
            Piece::Number(start),
            Piece::Words(b" 0 "),
            Piece::Number(wide),
            Piece::Words(b" "),
            Piece::Number(high),
            Piece::Words(b"\"><use href=\"#picture\"/></svg>\n"),
        ],
    )
}

/// Adds the rows that end at these places, and gives the height behind them.
fn push_rows(text: &mut Vec<u8>, high: u64, cuts: &[u64]) -> Result<u64, AllocError>
    ensures rows { OnOk result (text.new.items ≡ text.old.items ++ rows_text 0 high 0 cuts.now) }
    ensures bottom { IfOk result (λ y. y ≡ rows_end 0 high cuts.now) }
{
    let mut y = 0;
    let mut start = 0;
    for cut in cuts {
        push_row(text, y, high, start, cut.saturating_sub(start))?;
        y = below(y, high)?;
        start = *cut;
    }
    Ok(y)
}

/// How wide the widest row is.
fn widest(cuts: &[u64]) -> u64
    ensures { result ≡ widest 0 0 cuts.now }
{
    let mut width = 0;
    let mut start = 0;
    for cut in cuts {
        width = width.max(cut.saturating_sub(start));
        start = *cut;
    }
    width
}

/// Adds a drawing that is not seen by itself.
#[tactic(auto, unfolding(crate::specs::Rows::unseen))]
fn push_unseen(text: &mut Vec<u8>, drawing: &[u8]) -> Result<(), AllocError>
    ensures { OnOk result (text.new.items ≡ text.old.items ++ unseen drawing.now) }
{
    text.extend_from_slice(UNSEEN)?;
    text.extend_from_slice(drawing)?;
    text.extend_from_slice(UNSEEN_END)
}

/// Adds a drawing of that height in rows, and gives the height behind them.
#[tactic(auto, unfolding(crate::specs::Rows::shown_in_rows))]
fn push_in_rows(
    text: &mut Vec<u8>,
    high: u64,
    drawing: &[u8],
    cuts: &[u64],
) -> Result<u64, AllocError>
    ensures text { OnOk result (text.new.items ≡ text.old.items ++ shown_in_rows high drawing.now cuts.now) }
    ensures bottom { IfOk result (λ y. y ≡ rows_end 0 high cuts.now) }
{
    push_unseen(text, drawing)?;
    push_rows(text, high, cuts)
}

/// Adds a drawing of that height: as it is, or in the rows that end at these places. It gives how far down it reaches.
pub(crate) fn push_folded(
    text: &mut Vec<u8>,
    high: u64,
    drawing: &[u8],
    cuts: &[u64],
) -> Result<u64, AllocError>
    ensures text { OnOk result (text.new.items ≡ text.old.items ++ folded_text high drawing.now cuts.now) }
    ensures bottom { IfOk result (λ y. y ≡ folded_bottom high cuts.now) }
{
    if cuts.is_empty() {
        text.extend_from_slice(drawing)?;
        return Ok(high);
    }
    push_in_rows(text, high, drawing, cuts)
}

/// How wide a drawing is that is so wide as it is, in the rows that end at these places.
pub(crate) fn folded_width(width: u64, cuts: &[u64]) -> u64
    ensures { result ≡ folded_width width cuts.now }
{
    if cuts.is_empty() {
        width
    } else {
        widest(cuts).saturating_sub(32)
    }
}
