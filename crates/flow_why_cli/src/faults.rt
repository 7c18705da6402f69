//! What is wrong at a place of a text, in words, and what may help.
ghost use Rattle.std.specs.Prelude.{◌≡◌, ◌++◌, ℕ, List, OnOk, Some, map};
ghost use Rattle.std.specs.Str.{bytes_eq};
ghost use Rattle.flow_form.specs.Script.{declared};
ghost use Rattle.flow_form.specs.Names.{declared_names};
ghost use Rattle.flow_why_cli.specs.Words.{hint_line, meant_line, names_line, near_line, other_line, wanted_line, IsFaultText, IsHintLine, IsWantedLine};

use crate::hint_words::{hint_words, wanted_words};
use crate::spots::{push_met, push_place};
use flow_fault::{Fault, Hint, near_name};
use flow_form::{Script, TextRefusal};
use flow_writer::Writer;
use std::alloc::AllocError;

/// Adds what could stand at a place.
fn push_words(writer: &mut Writer, words: &str) -> Result<(), AllocError>
    ensures { OnOk result (writer.new.text.items ≡ writer.old.text.items ++ wanted_line words.now) }
{
    writer.words("could stand here: ")?;
    writer.words(words)?;
    writer.words("\n")
}

/// Adds what could stand at a place, if the refusal names that.
fn push_wanted(writer: &mut Writer, refusal: &TextRefusal) -> Result<(), AllocError>
    ensures { OnOk result ((line : List ℕ) × IsWantedLine refusal.now line × (writer.new.text.items ≡ writer.old.text.items ++ line)) }
{
    match refusal {
        TextRefusal::Expected { kind, .. } => push_words(writer, wanted_words(*kind)),
        _ => Ok(()),
    }
}

/// Adds the hint, if there is one.
fn push_hint_of(writer: &mut Writer, hint: Option<Hint>) -> Result<(), AllocError>
    ensures { OnOk result ((line : List ℕ) × IsHintLine hint line × (writer.new.text.items ≡ writer.old.text.items ++ line)) }
{
    match hint {
        Some(hint) => push_hint(writer, hint_words(hint)),
        None => Ok(()),
    }
}

/// Adds what is wrong at a place of a text that stands so many lines behind others.
pub fn push_fault(
    writer: &mut Writer,
    fault: &Fault<'_>,
    before: usize,
    refusal: &TextRefusal,
) -> Result<(), AllocError>
    ensures { OnOk result (IsFaultText fault.now before refusal.now writer.old.text.items writer.new.text.items) }
{
    push_place(writer, fault.spot, before)?;
    writer.words("met: ")?;
    push_met(writer, fault.met)?;
    writer.words("\n")?;
    push_wanted(writer, refusal)?;
    push_hint_of(writer, fault.hint)
}

/// Adds a hint.
pub fn push_hint(writer: &mut Writer, words: &str) -> Result<(), AllocError>
    ensures { OnOk result (writer.new.text.items ≡ writer.old.text.items ++ hint_line words.now) }
{
    writer.words("hint: ")?;
    writer.words(words)?;
    writer.words("\n")
}

/// Adds what may stand where a name does.
fn push_names(writer: &mut Writer) -> Result<(), AllocError>
    ensures { OnOk result (writer.new.text.items ≡ writer.old.text.items ++ names_line) }
{
    push_hint(
        writer,
        "a goal has declared events and sub-workflows, a constraint declared events",
    )
}

/// Whether the names are the same.
fn is_same(name: &[u8], other: &[u8]) -> bool
    ensures { result ≡ bytes_eq name.now other.now }
{
    name == other
}

/// Adds that a name was perhaps meant in place of another. A declared name is unknown where it is of another kind.
fn push_meant(writer: &mut Writer, near: &[u8], name: &[u8]) -> Result<(), AllocError>
    ensures { OnOk result (writer.new.text.items ≡ writer.old.text.items ++ meant_line (Some near.now) name.now) }
{
    if is_same(near, name) {
        push_names(writer)
    } else {
        push_other(writer, near)
    }
}

/// Adds that another name was perhaps meant.
fn push_other(writer: &mut Writer, near: &[u8]) -> Result<(), AllocError>
    ensures { OnOk result (writer.new.text.items ≡ writer.old.text.items ++ other_line near.now) }
{
    writer.words("hint: did you mean ")?;
    writer.bytes(near)?;
    writer.words("?\n")
}

/// Adds which name of the script was perhaps meant.
pub fn push_near_in(writer: &mut Writer, script: &Script, name: &[u8]) -> Result<(), AllocError>
    ensures { OnOk result (
        writer.new.text.items ≡ writer.old.text.items ++ near_line (declared_names (map declared script.now.decls.items)) name.now) }
{
    match near_name(&script.decls, name) {
        Some(near) => push_meant(writer, near.bytes(), name),
        None => push_names(writer),
    }
}
