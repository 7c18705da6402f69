//! A line of a trail as text.
ghost use Rattle.std.specs.Prelude.{◌≡◌, ◌++◌, codes, OnOk, IfOk};
ghost use Rattle.std.specs.Fmt.{decimal};
ghost use Rattle.std.specs.String.{string_bytes};
ghost use Rattle.flow_trail.specs.Spelling.{spelt};
ghost use Rattle.flow_trail.specs.Lines.{said_of, member, note_member, word_of, sealed_text, line_text, CanFollow, end_behind};

use crate::line::{Remark, Telling, TrailEnd, TrailLine};
use crate::seal::seal_behind;
use crate::spelling::push_spelt;
use itoa::Buffer;
use std::alloc::{AllocError, Global};

/// The line, without its newline, and where the trail ends behind it.
#[tactic(auto, unfolding(crate::specs::Lines::seal_of, crate::specs::Lines::line_text))]
pub(crate) fn print_line(
    alloc: Global,
    end: &TrailEnd,
    line: &TrailLine,
) -> Result<(Vec<u8>, TrailEnd), AllocError>
    requires { CanFollow end.now (said_of line.now) }
    ensures text { IfOk result (λ printed. printed.0.items ≡ line_text end.now (said_of line.now)) }
    ensures behind { IfOk result (λ printed. printed.1 ≡ end_behind end.now (said_of line.now)) }
{
    let mut text = print_sealed(alloc, end, line)?;
    let seal = seal_behind(&end.seal, &text);
    text.extend_from_slice(b",\"seal\":\"")?;
    text.extend_from_slice(hex::encode(alloc, &seal)?.as_bytes())?;
    text.extend_from_slice(b"\"}")?;
    Ok((text, end.behind(line, seal)))
}

/// The line up to its seal.
fn print_sealed(alloc: Global, end: &TrailEnd, line: &TrailLine) -> Result<Vec<u8>, AllocError>
    requires { CanFollow end.now (said_of line.now) }
    ensures { IfOk result (λ text. text.items ≡ sealed_text end.now (said_of line.now)) }
{
    match line {
        TrailLine::Told(telling) => print_told(alloc, end.count + 1, telling),
        TrailLine::Void { at } => print_void(alloc, end.count, at),
        TrailLine::Remark(remark) => print_remark(alloc, remark),
    }
}

fn print_told(alloc: Global, number: u32, telling: &Telling) -> Result<Vec<u8>, AllocError>
    ensures { IfOk result (λ text. text.items ≡ codes "{\"n\":" ++ decimal number ++ member (codes "at") (string_bytes telling.now.at)
        ++ member (codes "by") (string_bytes telling.now.by) ++ member (codes "entry") (string_bytes telling.now.entry)
        ++ member (codes "task") (string_bytes telling.now.task) ++ note_member (string_bytes telling.now.note)) }
{
    let mut text = Vec::from_slice(alloc, b"{\"n\":")?;
    push_number(&mut text, number)?;
    push_member(&mut text, b"at", &telling.at)?;
    push_member(&mut text, b"by", &telling.by)?;
    push_member(&mut text, b"entry", &telling.entry)?;
    push_member(&mut text, b"task", &telling.task)?;
    push_note(&mut text, &telling.note)?;
    Ok(text)
}

fn print_void(alloc: Global, number: u32, at: &String) -> Result<Vec<u8>, AllocError>
    ensures { IfOk result (λ text. text.items ≡ codes "{\"n\":" ++ decimal number ++ codes ",\"void\":true" ++ member (codes "at") (string_bytes at.now)) }
{
    let mut text = Vec::from_slice(alloc, b"{\"n\":")?;
    push_number(&mut text, number)?;
    text.extend_from_slice(b",\"void\":true")?;
    push_member(&mut text, b"at", at)?;
    Ok(text)
}

fn print_remark(alloc: Global, remark: &Remark) -> Result<Vec<u8>, AllocError>
    ensures { IfOk result (λ text. text.items ≡ codes "{\"" ++ word_of remark.now.about ++ codes "\":\"" ++ spelt (string_bytes remark.now.text) ++ codes "\",\"entry\":"
        ++ decimal remark.now.entry ++ member (codes "by") (string_bytes remark.now.by) ++ member (codes "at") (string_bytes remark.now.at)) }
{
    let mut text = Vec::from_slice(alloc, b"{\"")?;
    text.extend_from_slice(remark.about.word())?;
    text.extend_from_slice(b"\":\"")?;
    push_spelt(&mut text, remark.text.as_bytes())?;
    text.extend_from_slice(b"\",\"entry\":")?;
    push_number(&mut text, remark.entry)?;
    push_member(&mut text, b"by", &remark.by)?;
    push_member(&mut text, b"at", &remark.at)?;
    Ok(text)
}

fn push_number(text: &mut Vec<u8>, number: u32) -> Result<(), AllocError>
    ensures { OnOk result (text.new.items ≡ text.old.items ++ decimal number) }
{
    let mut digits = Buffer::new();
    text.extend_from_slice(digits.format(number).as_bytes())
}

/// Adds a member with a text behind others.
fn push_member(text: &mut Vec<u8>, name: &[u8], value: &String) -> Result<(), AllocError>
    ensures { OnOk result (text.new.items ≡ text.old.items ++ member name.now (string_bytes value.now)) }
{
    text.extend_from_slice(b",\"")?;
    text.extend_from_slice(name)?;
    text.extend_from_slice(b"\":\"")?;
    push_spelt(text, value.as_bytes())?;
    text.extend_from_slice(b"\"")
}

/// Adds the note, where there is one.
fn push_note(text: &mut Vec<u8>, note: &String) -> Result<(), AllocError>
    ensures { OnOk result (text.new.items ≡ text.old.items ++ note_member (string_bytes note.now)) }
{
    if note.is_empty() {
        return Ok(());
    }
    push_member(text, b"note", note)
}
