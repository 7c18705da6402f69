ghost use Rattle.std.specs.Prelude.{◌≡◌, ◌++◌, OnOk};
ghost use Rattle.flow_svg.specs.Element.{rect_text, words_text};

use flow_draw::{Format, Piece, push_pieces};
use flow_view::Place;
use std::alloc::AllocError;

/// Adds a rectangle, its corners so round.
#[tactic(auto, unfolding(crate::specs::Element::rect_text))]
pub(crate) fn push_rect(text: &mut Vec<u8>, place: &Place, round: u64) -> Result<(), AllocError>
    ensures { OnOk result (text.new.items ≡ text.old.items ++ rect_text place.now round) }
{
    let width = place.right.saturating_sub(place.left);
    let height = place.bottom.saturating_sub(place.top);
    push_pieces(
        text,
        &[
            Piece::Words(b"<rect x=\""),
            Piece::Number(place.left as u64),
            Piece::Words(b"\" y=\""),
            Piece::Number(place.top as u64),
            Piece::Words(b"\" width=\""),
            Piece::Number(width as u64),
            Piece::Words(b"\" height=\""),
            Piece::Number(height as u64),
            Piece::Words(b"\" rx=\""),
            Piece::Number(round),
            Piece::Words(b"\"/>"),
        ],
    )
}

/// Words, and where they stand: so far to the right, and so much below a height.
#[derive(Clone, Copy)]
pub(crate) struct Words<'a> {
    pub(crate) class: &'static [u8],
    pub(crate) x: u64,
    pub(crate) y: u64,
    pub(crate) down: u64,
    pub(crate) words: &'a [u8],
}

/// Adds words.
#[tactic(auto, unfolding(crate::specs::Element::words_text))]
pub(crate) fn push_words(text: &mut Vec<u8>, words: &Words) -> Result<(), AllocError>
    ensures { OnOk result (text.new.items ≡ text.old.items
        ++ words_text words.now.class.now words.now.x words.now.y words.now.down words.now.words.now) }
{
    push_pieces(
        text,
        &[
            Piece::Words(b"<text class=\""),
            Piece::Words(words.class),
            Piece::Words(b"\" x=\""),
            Piece::Number(words.x),
            Piece::Words(b"\" y=\""),
            Piece::Number(words.y),
            Piece::Words(b"\" dy=\""),
            Piece::Number(words.down),
            Piece::Words(b"\">"),
            Piece::Escaped(Format::Svg, words.words),
            Piece::Words(b"</text>"),
        ],
    )
}
