//! The texts of cells.
ghost use Rattle.std.specs.Prelude.{◌≡◌, ◌++◌, IfOk, OnOk};
ghost use Rattle.std.specs.Fmt.{decimal};
ghost use Rattle.flow_draw.specs.Pieces.{pieces_text};
ghost use Rattle.flow_folder_page.specs.Cells.{before_text, listed};

use flow_draw::{Piece, push_pieces};
use flow_facts::Name;
use itoa::Buffer;
use std::alloc::{AllocError, Global};

/// The pieces as a text of their own.
pub(crate) fn text_of(alloc: Global, pieces: &[Piece<'_>]) -> Result<Name, AllocError>
    ensures { IfOk result (λ text. text ≡ pieces_text pieces.now) }
{
    let mut text = Vec::new(alloc);
    push_pieces(&mut text, pieces)?;
    Name::new(alloc, &text)
}

pub(crate) fn number_text(alloc: Global, number: u64) -> Result<Name, AllocError>
    ensures { IfOk result (λ text. text ≡ decimal number) }
{
    let mut digits = Buffer::new();
    Name::new(alloc, digits.format(number).as_bytes())
}

/// What stands before the text at a place.
fn before_text(place: usize) -> &'static [u8]
    ensures { result.now ≡ before_text place }
{
    if place == 0 { b"" } else { b", " }
}

/// Adds the text at a place of a list.
fn push_listed(text: &mut Vec<u8>, place: usize, one: &Name) -> Result<(), AllocError>
    ensures { OnOk result (text.new.items ≡ text.old.items ++ (before_text place ++ one.now)) }
{
    text.extend_from_slice(before_text(place))?;
    text.extend_from_slice(one.bytes())
}

/// Adds the texts, with commas between them.
fn push_all_listed(text: &mut Vec<u8>, texts: &[Name]) -> Result<(), AllocError>
    ensures { OnOk result (text.new.items ≡ text.old.items ++ listed 0 texts.now) }
{
    for (place, one) in texts.iter().enumerate() {
        push_listed(text, place, one)?;
    }
    Ok(())
}

/// The texts, with commas between them.
pub(crate) fn listed(alloc: Global, texts: &[Name]) -> Result<Name, AllocError>
    ensures { IfOk result (λ text. text ≡ listed 0 texts.now) }
{
    let mut text = Vec::new(alloc);
    push_all_listed(&mut text, texts)?;
    Name::new(alloc, &text)
}
