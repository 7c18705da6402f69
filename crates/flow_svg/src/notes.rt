ghost use Rattle.std.specs.Prelude.{◌≡◌, ◌+◌, ◌++◌, IfOk, OnOk};
ghost use Rattle.flow_svg.specs.Notes.{number_text, notes_text, notes_bottom, notes_width, legend_at, legend_text, legend_bottom, legend_width, left_out_text, left_out_bottom};

use crate::element::{Words, push_words};
use crate::lines::push_lines;
use crate::style::{LEFT_OUT, LEGEND, LEGEND_HEIGHT, LEGEND_WIDTH};
use flow_draw::{Piece, below, push_pieces};
use flow_facts::Name;
use flow_view::Mark;
use std::alloc::AllocError;

/// Adds the number of a constraint.
#[tactic(auto, unfolding(crate::specs::Notes::number_text))]
pub(crate) fn push_number(
    text: &mut Vec<u8>,
    x: u64,
    y: u64,
    down: u64,
    number: u64,
) -> Result<(), AllocError>
    ensures { OnOk result (text.new.items ≡ text.old.items ++ number_text x y down number) }
{
    push_pieces(
        text,
        &[
            Piece::Words(b"<text class=\"number\" x=\""),
            Piece::Number(x),
            Piece::Words(b"\" y=\""),
            Piece::Number(y),
            Piece::Words(b"\" dy=\""),
            Piece::Number(down),
            Piece::Words(b"\">"),
            Piece::Number(number),
            Piece::Words(b"</text>\n"),
        ],
    )
}

/// Adds the constraints, each with its number, from a height on, and gives the height behind them.
pub(crate) fn push_notes(text: &mut Vec<u8>, top: u64, rules: &[Name]) -> Result<u64, AllocError>
    ensures notes { OnOk result (text.new.items ≡ text.old.items ++ notes_text top 0 rules.now) }
    ensures bottom { IfOk result (λ y. y ≡ notes_bottom top rules.now) }
{
    let mut y = top;
    for (number, rule) in rules.iter().enumerate() {
        push_number(text, 12, y, 0, number as u64)?;
        y = push_lines(text, y, rule.bytes())?;
    }
    Ok(y)
}

/// How wide the constraints are.
pub(crate) fn notes_width(rules: &[Name]) -> u64
    ensures { result ≡ notes_width rules.now }
{
    let mut width = 0;
    for rule in rules {
        width = width.max(40 + 8 * (rule.bytes().len() as u64).min(120));
    }
    width
}

/// Adds what marks mean, where there are marks, from a height on, and gives the height behind it.
pub(crate) fn push_legend(text: &mut Vec<u8>, top: u64, marks: &[Mark]) -> Result<u64, AllocError>
    ensures legend { OnOk result (text.new.items ≡ text.old.items ++ legend_text top marks.now) }
    ensures bottom { IfOk result (λ y. y ≡ legend_bottom top marks.now) }
{
    if marks.is_empty() {
        return Ok(top);
    }
    push_legend_at(text, top)?;
    below(top, LEGEND_HEIGHT)
}

#[tactic(auto, unfolding(crate::specs::Notes::legend_at))]
fn push_legend_at(text: &mut Vec<u8>, top: u64) -> Result<(), AllocError>
    ensures { OnOk result (text.new.items ≡ text.old.items ++ legend_at top) }
{
    push_pieces(
        text,
        &[
            Piece::Words(b"<g transform=\"translate(0 "),
            Piece::Number(top),
            Piece::Words(b")\">\n"),
            Piece::Words(LEGEND),
            Piece::Words(b"</g>\n"),
        ],
    )
}

/// How wide the legend is.
pub(crate) fn legend_width(marks: &[Mark]) -> u64
    ensures { result ≡ legend_width marks.now }
{
    if marks.is_empty() { 0 } else { LEGEND_WIDTH }
}

/// Adds that arrows are left out, where they are, and gives the height behind it.
pub(crate) fn push_left_out(text: &mut Vec<u8>, top: u64, left_out: bool) -> Result<u64, AllocError>
    ensures words { OnOk result (text.new.items ≡ text.old.items ++ left_out_text top left_out) }
    ensures bottom { IfOk result (λ y. y ≡ left_out_bottom top left_out) }
{
    if !left_out {
        return Ok(top);
    }
    push_words(
        text,
        &Words {
            class: b"note",
            x: 0,
            y: top,
            down: 0,
            words: LEFT_OUT,
        },
    )?;
    below(top, 20)
}
