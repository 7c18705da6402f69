//! What is told of a refusal besides flow's own line.

use crate::faults::{push_fault, push_hint, push_near_in};
use crate::leaf_places::places_of_leaf;
use crate::spots::{push_marked, push_spot};
use flow_fault::{fault_of, spot_of};
use flow_form::TextRefusal;
use flow_front::Refused;
use flow_goal::Twice;
use flow_lex::lex;
use flow_reader::read_script;
use flow_workflow::{ExpandRefusal, Part};
use flow_writer::Writer;
use std::alloc::{AllocError, Global};

/// Adds which declared name was perhaps meant in place of an unknown one.
fn push_near(
    writer: &mut Writer,
    alloc: Global,
    text: &[u8],
    name: &[u8],
) -> Result<(), AllocError> {
    let Ok(tokens) = lex(alloc, text) else {
        return Ok(());
    };
    let Ok(script) = read_script(alloc, text, &tokens) else {
        return Ok(());
    };
    let told = push_near_in(writer, &script, name);
    drop(script);
    told
}

/// Adds what is wrong where a text says nothing.
fn push_text_refusal(
    writer: &mut Writer,
    alloc: Global,
    text: &[u8],
    refusal: &TextRefusal,
) -> Result<(), AllocError> {
    push_fault(writer, &fault_of(text, refusal), 0, refusal)?;
    match refusal {
        TextRefusal::Unknown { name, .. } => push_near(writer, alloc, text, name.bytes()),
        TextRefusal::Repeated { .. } => push_hint(
            writer,
            "events and sub-workflows share one space of names, each is declared once",
        ),
        TextRefusal::TooDeep { .. } => push_hint(
            writer,
            "at most 200 parentheses and nots stand inside one another",
        ),
        _ => Ok(()),
    }
}

/// Adds where a leaf stands: in the goal, and in each sub-workflow by which it comes.
fn push_leaf(writer: &mut Writer, alloc: Global, text: &[u8], leaf: u32) -> Result<(), AllocError> {
    let places = places_of_leaf(alloc, text, leaf)?;
    writer.words("leaf ")?;
    writer.number(u64::from(leaf))?;
    let mut before = ": ";
    for place in places.iter().rev() {
        let spot = spot_of(text, text.len().min(*place));
        writer.words(before)?;
        push_spot(writer, spot)?;
        writer.words("\n")?;
        push_marked(writer, spot)?;
        before = "  put in at ";
    }
    Ok(())
}

/// Adds where the two leaves of an event stand.
fn push_twice(
    writer: &mut Writer,
    alloc: Global,
    text: &[u8],
    found: &Twice,
) -> Result<(), AllocError> {
    writer.words("both may be done in one execution:\n")?;
    push_leaf(writer, alloc, text, found.first)?;
    push_leaf(writer, alloc, text, found.second)?;
    push_hint(
        writer,
        "an event is done once in an execution: declare a second event, or put the two on the sides of a +",
    )
}

/// What is told of a refusal besides flow's own line.
pub(crate) fn words_of(
    alloc: Global,
    text: &[u8],
    refused: &Refused,
) -> Result<Vec<u8>, AllocError> {
    let mut writer = Writer::new(alloc);
    match refused {
        Refused::Text(refusal) => push_text_refusal(&mut writer, alloc, text, refusal)?,
        Refused::Expand(ExpandRefusal::Twice(found)) => push_twice(
            &mut writer,
            alloc,
            text,
            found,
        )?,
        Refused::Expand(refusal) => push_hint(&mut writer, expand_words(refusal))?,
        Refused::Compile(_) => push_hint(
            &mut writer,
            "at most 4096 resolutions, 4096 options, and 262144 leaves and pairs in all: each + of which a constraint speaks, or with an empty side, multiplies them",
        )?,
        _ => {}
    }
    Ok(writer.text)
}

/// What a workflow may not be.
fn expand_words(refusal: &ExpandRefusal) -> &'static str {
    match refusal {
        ExpandRefusal::TooLarge {
            part: Part::Flows,
            ..
        } => "at most 256 sub-workflows are declared",
        ExpandRefusal::TooLarge {
            part: Part::Goal,
            ..
        } =>
            "with its sub-workflows in place, a goal has at most 4096 leaves and nops, and 4096 isos",
        ExpandRefusal::TooLarge {
            part: Part::Rules,
            ..
        } => "at most 8192 names stand in constraints",
        ExpandRefusal::Recursive { .. } => {
            "a sub-workflow stands for its goal, and there are no loops: none may name itself"
        }
        ExpandRefusal::Twice(_) | ExpandRefusal::NoMemory => "",
    }
}
