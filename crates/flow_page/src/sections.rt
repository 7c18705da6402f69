ghost use Rattle.std.specs.Prelude.{◌≡◌, ◌++◌, OnOk};
ghost use Rattle.std.specs.List.{flat_map};
ghost use Rattle.flow_page.specs.Sections.{paragraph_text, picture_text, part_text, heading_text, section_text, sections_text};

use crate::data::{Part, Section};
use crate::tables::push_table;
use flow_draw::{Format, Piece, push_pieces};
use std::alloc::AllocError;

/// Adds sections, numbered from 0.
pub(crate) fn push_sections(text: &mut Vec<u8>, sections: &[Section]) -> Result<(), AllocError>
    ensures { OnOk result (text.new.items ≡ text.old.items ++ sections_text 0 sections.now) }
{
    for (number, section) in sections.iter().enumerate() {
        push_section(text, number as u64, section)?;
    }
    Ok(())
}

/// Adds a section of that number, by which its heading is found.
#[tactic(auto, unfolding(crate::specs::Sections::section_text))]
fn push_section(text: &mut Vec<u8>, number: u64, section: &Section) -> Result<(), AllocError>
    ensures { OnOk result (text.new.items ≡ text.old.items ++ section_text number section.now) }
{
    push_heading(text, number, section.heading.bytes())?;
    push_parts(text, number, &section.parts)?;
    text.extend_from_slice(b"</section>\n")
}

#[tactic(auto, unfolding(crate::specs::Sections::heading_text))]
fn push_heading(text: &mut Vec<u8>, number: u64, heading: &[u8]) -> Result<(), AllocError>
    ensures { OnOk result (text.new.items ≡ text.old.items ++ heading_text number heading.now) }
{
    push_pieces(
        text,
        &[
            Piece::Words(b"<section aria-labelledby=\"part-"),
            Piece::Number(number),
            Piece::Words(b"\">\n<h2 id=\"part-"),
            Piece::Number(number),
            Piece::Words(b"\">"),
            Piece::Escaped(Format::Svg, heading),
            Piece::Words(b"</h2>\n"),
        ],
    )
}

/// Adds what stands in a section of that number.
fn push_parts(text: &mut Vec<u8>, number: u64, parts: &[Part]) -> Result<(), AllocError>
    ensures { OnOk result (text.new.items ≡ text.old.items ++ flat_map (part_text number) parts.now) }
{
    for part in parts {
        push_part(text, number, part)?;
    }
    Ok(())
}

fn push_part(text: &mut Vec<u8>, number: u64, part: &Part) -> Result<(), AllocError>
    ensures { OnOk result (text.new.items ≡ text.old.items ++ part_text number part.now) }
{
    match part {
        Part::Text(words) => push_paragraph(text, words.bytes()),
        Part::Picture(svg) => push_picture(text, number, svg),
        Part::Table(table) => push_table(text, number, table),
    }
}

#[tactic(auto, unfolding(crate::specs::Sections::paragraph_text))]
fn push_paragraph(text: &mut Vec<u8>, words: &[u8]) -> Result<(), AllocError>
    ensures { OnOk result (text.new.items ≡ text.old.items ++ paragraph_text words.now) }
{
    push_pieces(
        text,
        &[
            Piece::Words(b"<p>"),
            Piece::Escaped(Format::Svg, words),
            Piece::Words(b"</p>\n"),
        ],
    )
}

/// Adds a picture. Its label is the heading of that number.
#[tactic(auto, unfolding(crate::specs::Sections::picture_text))]
fn push_picture(text: &mut Vec<u8>, number: u64, svg: &[u8]) -> Result<(), AllocError>
    ensures { OnOk result (text.new.items ≡ text.old.items ++ picture_text number svg.now) }
{
    push_pieces(
        text,
        &[
            Piece::Words(b"<div class=\"wide\" role=\"img\" aria-labelledby=\"part-"),
            Piece::Number(number),
            Piece::Words(b"\">\n"),
            Piece::Words(svg),
            Piece::Words(b"</div>\n"),
        ],
    )
}
