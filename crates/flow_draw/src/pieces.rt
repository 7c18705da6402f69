ghost use Rattle.std.specs.Prelude.{◌≡◌, ◌+◌, ◌++◌, IfOk, OnOk};
ghost use Rattle.flow_draw.specs.Pieces.{piece_text, pieces_text};

use crate::escape::push_escaped;
use crate::format::Format;
use itoa::Buffer;
use std::alloc::AllocError;

/// A piece of a text.
#[derive(Clone, Copy)]
pub enum Piece<'a> {
    /// As it is.
    Words(&'a [u8]),
    Number(u64),
    /// What is to be read as it is in a text of that form.
    Escaped(Format, &'a [u8]),
}

/// Adds pieces to a text, one after another.
pub fn push_pieces(text: &mut Vec<u8>, pieces: &[Piece]) -> Result<(), AllocError>
    ensures { OnOk result (text.new.items ≡ text.old.items ++ pieces_text pieces.now) }
{
    for piece in pieces {
        push_piece(text, piece)?;
    }
    Ok(())
}

fn push_piece(text: &mut Vec<u8>, piece: &Piece) -> Result<(), AllocError>
    ensures { OnOk result (text.new.items ≡ text.old.items ++ piece_text piece.now) }
{
    match *piece {
        Piece::Words(words) => text.extend_from_slice(words),
        Piece::Number(number) => {
            let mut digits = Buffer::new();
            text.extend_from_slice(digits.format(number).as_bytes())
        }
        Piece::Escaped(format, bytes) => push_escaped(text, format, bytes),
    }
}

/// The place so much farther down. It is refused where it is no `u64`: so much memory is not there.
pub fn below(top: u64, by: u64) -> Result<u64, AllocError>
    ensures { IfOk result (λ place. place ≡ top + by) }
{
    match top.checked_add(by) {
        Some(place) => Ok(place),
        None => Err(AllocError),
    }
}
