//! What is wrong with a text, as objects of JSON.
ghost use Rattle.std.specs.Prelude.{◌≡◌, ◌++◌, OnOk};
ghost use Rattle.flow_findings.specs.Refusing.{kind_text};
ghost use Rattle.flow_fault.specs.declared.fault.Fault.{Fault};
ghost use Rattle.flow_fault.specs.Fault.{IsFault};
ghost use Rattle.flow_why_cli.specs.Members.{expand_word, fault_members, hint_member, kind_member, met_member, refusal_start, refusal_word, text_word};

use crate::hint_words::hint_word;
use crate::rule_words::{WrittenRule, written_rules};
use flow_excise::CompileRefusal;
use flow_fault::{Hint, Met, fault_of, spot_of};
use flow_form::{TextRefusal, Wanted};
use flow_front::Refused;
use flow_policy::PolicyRefusal;
use flow_record::RecordRefusal;
use flow_why::Conflict;
use flow_workflow::{ExpandRefusal, Part};
use flow_writer::Writer;
use std::alloc::{AllocError, Global};

/// The word of a refusal of a text.
fn text_word(refusal: &TextRefusal) -> &'static str
    ensures { result.now ≡ text_word refusal.now }
{
    match refusal {
        TextRefusal::NotAscii { .. } => "byte",
        TextRefusal::BadToken { .. } => "token",
        TextRefusal::Expected { .. } => "expected",
        TextRefusal::Unknown { .. } => "unknown",
        TextRefusal::Repeated { .. } => "repeated",
        TextRefusal::TooDeep { .. } => "deep",
        TextRefusal::NoMemory => "memory",
    }
}

/// The word of a refusal of a workflow.
fn expand_word(refusal: &ExpandRefusal) -> &'static str
    ensures { result.now ≡ expand_word refusal.now }
{
    match refusal {
        ExpandRefusal::TooLarge {
            part: Part::Flows,
            ..
        } => "flows",
        ExpandRefusal::TooLarge {
            part: Part::Goal,
            ..
        } => "size",
        ExpandRefusal::TooLarge {
            part: Part::Rules,
            ..
        } => "rules",
        ExpandRefusal::Recursive { .. } => "recursive",
        ExpandRefusal::Twice(_) => "twice",
        ExpandRefusal::NoMemory => "memory",
    }
}

/// The word of a refusal.
fn refusal_word(refused: &Refused) -> &'static str
    ensures { result.now ≡ refusal_word refused.now }
{
    match refused {
        Refused::Text(refusal) | Refused::Query(refusal) => text_word(refusal),
        Refused::Policy(PolicyRefusal::NotAscii { .. }) => "byte",
        Refused::Policy(PolicyRefusal::BadToken { .. }) => "token",
        Refused::Policy(PolicyRefusal::Expected { .. }) => "expected",
        Refused::Policy(PolicyRefusal::Unknown { .. }) => "unknown",
        Refused::Record(RecordRefusal::BadLine { .. }) => "line",
        Refused::Record(RecordRefusal::Label { .. }) => "label",
        Refused::NoRule(_) => "constraint",
        Refused::Expand(refusal) => expand_word(refusal),
        Refused::Compile(CompileRefusal::TooManyChoices { .. }) => "choices",
        Refused::Compile(CompileRefusal::TooManyWays { .. }) => "options",
        Refused::Compile(CompileRefusal::TooBulky { .. }) => "bulk",
        _ => "too_long",
    }
}

/// The word of what is wanted, as flow's own line has it.
fn kind_word(wanted: Wanted) -> &'static str
    ensures { result.now ≡ kind_text wanted }
{
    match wanted {
        Wanted::Declaration => "declaration",
        Wanted::Constraint => "constraint",
        Wanted::Name => "name",
        Wanted::Fact => "fact",
        Wanted::Constant => "constant",
        Wanted::Atom => "atom",
        Wanted::Rule => "rule",
        Wanted::Opening => "(",
        Wanted::Closing => ")",
        Wanted::Equals => "=",
        Wanted::Semicolon => ";",
        Wanted::Query => "query",
        Wanted::Number => "number",
        Wanted::End => "end",
    }
}

/// Adds what is wanted, if the refusal names that.
fn push_kind(writer: &mut Writer, refusal: &TextRefusal) -> Result<(), AllocError>
    ensures { OnOk result (writer.new.text.items ≡ writer.old.text.items ++ kind_member refusal.now) }
{
    match refusal {
        TextRefusal::Expected { kind, .. } => {
            writer.text_member("kind", kind_word(*kind).as_bytes())
        }
        _ => Ok(()),
    }
}

/// Adds the word of a hint, if there is one.
fn push_hint_member(writer: &mut Writer, hint: Option<Hint>) -> Result<(), AllocError>
    ensures { OnOk result (writer.new.text.items ≡ writer.old.text.items ++ hint_member hint) }
{
    match hint {
        Some(hint) => writer.text_member("hint", hint_word(hint).as_bytes()),
        None => Ok(()),
    }
}

/// Adds where a text is refused, so many lines behind others, what is met there and what may help, as members of an object.
pub fn push_fault_members(
    writer: &mut Writer,
    text: &[u8],
    before: usize,
    refusal: &TextRefusal,
) -> Result<(), AllocError>
    ensures { OnOk result ((fault : Fault) × IsFault text.now refusal.now fault
        × (writer.new.text.items ≡ writer.old.text.items ++ fault_members fault before refusal.now)) }
{
    let fault = fault_of(text, refusal);
    push_kind(writer, refusal)?;
    writer.number_member("line", fault.spot.line.saturating_add(before) as u64)?;
    writer.number_member("column", fault.spot.column as u64)?;
    push_met_member(writer, fault.met)?;
    push_hint_member(writer, fault.hint)
}

/// A refusal as an object.
pub(crate) fn refusal_object(
    alloc: Global,
    text: &[u8],
    refused: &Refused,
) -> Result<Vec<u8>, AllocError> {
    let mut writer = Writer::new(alloc);
    push_refusal(&mut writer, refused)?;
    if let Refused::Text(refusal) = refused {
        push_fault_members(&mut writer, text, 0, refusal)?;
    }
    writer.words("}\n")?;
    Ok(writer.text)
}

/// Begins the object of a refusal: the verdict, and the word of the refusal.
pub fn push_refusal(writer: &mut Writer, refused: &Refused) -> Result<(), AllocError>
    ensures { OnOk result (writer.new.text.items ≡ writer.old.text.items ++ refusal_start (refusal_word refused.now)) }
{
    push_start(writer, refusal_word(refused))
}

/// Begins the object of a refusal of that word.
fn push_start(writer: &mut Writer, word: &str) -> Result<(), AllocError>
    ensures { OnOk result (writer.new.text.items ≡ writer.old.text.items ++ refusal_start word.now) }
{
    writer.words("{\"verdict\":\"refused\"")?;
    writer.text_member("refusal", word.as_bytes())
}

/// Adds what is met as a member of an object.
pub fn push_met_member(writer: &mut Writer, met: Met<'_>) -> Result<(), AllocError>
    ensures { OnOk result (writer.new.text.items ≡ writer.old.text.items ++ met_member met.entry) }
{
    match met {
        Met::Reserved(met) | Met::Name(met) | Met::Number(met) => writer.text_member("met", met),
        Met::Mark(byte) | Met::Byte(byte) => writer.text_member("met", &[byte]),
        Met::End => Ok(()),
    }
}

/// Adds a constraint as an object: its number, its line and what is written there.
fn push_rule(
    writer: &mut Writer,
    text: &[u8],
    rules: &[WrittenRule],
    number: u32,
) -> Result<(), AllocError> {
    writer.words("{\"number\":")?;
    writer.number(u64::from(number))?;
    if let Some(rule) = rules.get(number as usize) {
        let spot = spot_of(text, text.len().min(rule.place));
        writer.number_member("line", spot.line as u64)?;
        writer.text_member("text", &rule.text)?;
    }
    writer.words("}")
}

/// A conflict as an object.
pub(crate) fn conflict_object(
    alloc: Global,
    text: &[u8],
    conflict: &Conflict,
) -> Result<Vec<u8>, AllocError> {
    let rules = written_rules(alloc, text)?;
    let mut writer = Writer::new(alloc);
    writer.words("{\"verdict\":\"inconsistent\",\"conflict\":[")?;
    writer.numbers(&conflict.members)?;
    writer.words("],\"undecided\":[")?;
    writer.numbers(&conflict.undecided)?;
    writer.words("],\"constraints\":[")?;
    for (index, member) in conflict.members.iter().enumerate() {
        writer.between(index, ",")?;
        push_rule(&mut writer, text, &rules, *member)?;
    }
    writer.words("]}\n")?;
    Ok(writer.text)
}
