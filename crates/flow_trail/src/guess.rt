//! The one line that the pieces of a text may be of. Whether the text is that line's is for the caller to see, who prints it.
ghost use Rattle.std.specs.Prelude.{◌≡◌, ◌≤◌, ◌<◌, ◌^◌, ◌++◌, ◌∷◌, ℕ, [], map, length, Some, IfOk};
ghost use Rattle.std.specs.Str.{IsUtf8};
ghost use Rattle.std.specs.String.{string_bytes};
ghost use Rattle.std.specs.Fmt.{decimal};
ghost use Rattle.flow_record.specs.Lines.{pieces_of};
ghost use Rattle.flow_trail.specs.Spelling.{unspelt};
ghost use Rattle.flow_trail.specs.Lines.{said_of, told, void, word_of};
ghost use Rattle.flow_trail.specs.Read.{text_in, IsGuess};
ghost use Rattle.flow_trail.specs.declared.line.About.{About as Abouts};

use crate::line::{About, Remark, Telling, TrailLine};
use crate::pieces::{piece_at, pieces_of};
use crate::spelling::unspelt;
use std::alloc::{AllocError, Global};

/// What the text is, if it is a line of a trail.
pub(crate) fn guess(alloc: Global, text: &[u8]) -> Result<Option<TrailLine>, AllocError>
    ensures { IfOk result (IsGuess (pieces_of 34 text.now)) }
{
    let pieces = pieces_of(alloc, text)?;
    match pieces.len() {
        13 => Ok(Some(guess_void(alloc, &pieces)?)),
        19 => guess_remark(alloc, &pieces),
        23 => {
            let note = String::new(alloc);
            Ok(Some(guess_told(alloc, &pieces, note)?))
        }
        27 => {
            let note = read_text(alloc, piece_at(&pieces, 21))?;
            Ok(Some(guess_told(alloc, &pieces, note)?))
        }
        _ => Ok(None),
    }
}

fn guess_told(alloc: Global, pieces: &[&[u8]], note: String) -> Result<TrailLine, AllocError>
    requires { 18 ≤ length pieces.now }
    ensures { let ps = map (λ piece. piece.now) pieces.now in
        IfOk result (λ line. IsUtf8 (text_in ps 5) → IsUtf8 (text_in ps 9) → IsUtf8 (text_in ps 13) → IsUtf8 (text_in ps 17)
        → said_of line ≡ told (text_in ps 5) (text_in ps 9) (text_in ps 13) (text_in ps 17) (string_bytes note)) }
{
    let at = read_text(alloc, piece_at(pieces, 5))?;
    let by = read_text(alloc, piece_at(pieces, 9))?;
    let entry = read_text(alloc, piece_at(pieces, 13))?;
    let task = read_text(alloc, piece_at(pieces, 17))?;
    Ok(TrailLine::Told(Telling {
        at,
        by,
        entry,
        task,
        note,
    }))
}

fn guess_void(alloc: Global, pieces: &[&[u8]]) -> Result<TrailLine, AllocError>
    requires { length pieces.now ≡ 13 }
    ensures { let ps = map (λ piece. piece.now) pieces.now in
        IfOk result (λ line. IsUtf8 (text_in ps 7) → said_of line ≡ void (text_in ps 7)) }
{
    let at = read_text(alloc, piece_at(pieces, 7))?;
    Ok(TrailLine::Void { at })
}

/// What a line is about whose first member has that name.
fn about_in(name: &[u8]) -> About
    ensures { (about : Abouts) → name.now ≡ word_of about → result ≡ about }
{
    if name == b"moved".as_slice() {
        About::Moved
    } else {
        About::Undone
    }
}

fn guess_remark(alloc: Global, pieces: &[&[u8]]) -> Result<Option<TrailLine>, AllocError>
    requires { length pieces.now ≡ 19 }
    ensures { IfOk result (IsGuess (map (λ piece. piece.now) pieces.now)) }
{
    let Some(entry) = read_number(alloc, piece_at(pieces, 6))? else {
        return Ok(None);
    };
    let text = read_text(alloc, piece_at(pieces, 3))?;
    let by = read_text(alloc, piece_at(pieces, 9))?;
    let at = read_text(alloc, piece_at(pieces, 13))?;
    Ok(Some(TrailLine::Remark(Remark {
        about: about_in(piece_at(pieces, 1)),
        text,
        entry,
        by,
        at,
    })))
}

/// The text that a piece spells.
fn read_text(alloc: Global, piece: &[u8]) -> Result<String, AllocError>
    ensures { IfOk result (λ text. IsUtf8 (unspelt piece.now) → string_bytes text ≡ unspelt piece.now) }
{
    let said = unspelt(alloc, piece)?;
    String::from_utf8_lossy(alloc, &said)
}

/// The number between a colon and a comma, if one stands there.
fn read_number(alloc: Global, piece: &[u8]) -> Result<Option<u32>, AllocError>
    ensures { IfOk result (λ read. (n : ℕ) → n < 2 ^ 32 → piece.now ≡ 58 ∷ (decimal n ++ 44 ∷ []) → read ≡ Some n) }
{
    let [_, digits @ .., _] = piece else {
        return Ok(None);
    };
    let digits = String::from_utf8_lossy(alloc, digits)?;
    Ok(digits.as_str().parse::<u32>().ok())
}
