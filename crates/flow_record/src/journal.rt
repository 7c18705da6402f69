ghost use Rattle.std.specs.Prelude.{◌≡◌, ◌++◌, ℕ, [], Some, None, IfOk, OnOk, OnErr, MatchOption};
ghost use Rattle.std.specs.Result.{IsErrOf};
ghost use Rattle.flow_model.specs.Lists.{Begins};
ghost use Rattle.flow_workflow.specs.Label.{leaf_text};
ghost use Rattle.flow_record.specs.Journal.{leaf_line, journal_text, noted_leaf, is_label_of, JournalText, after_lines, with_noted, with_leaf_line, journal_of, journal, bad_line, wrong_label};

use crate::lines::{cut_at, split_line};
use crate::number::plain_number;
use crate::refusal::RecordRefusal;
use flow_model::{Label, MOST_LINES};
use flow_workflow::{Workflow, push_label, push_leaf_label};
use itoa::Buffer;
use std::alloc::{AllocError, Global};

/// Prints the label of a leaf: an event's name, or what is asked of a fact or done to it. The text is empty where there is no such leaf.
pub fn print_label(alloc: Global, workflow: &Workflow, leaf: u32) -> Result<Vec<u8>, AllocError>
    ensures { IfOk result (λ text. text.items ≡ leaf_text workflow.now leaf) }
{
    let mut text = Vec::new(alloc);
    push_leaf_label(&mut text, workflow, leaf)?;
    Ok(text)
}

/// Prints the lines of a journal.
pub fn print_journal(
    alloc: Global,
    workflow: &Workflow,
    leaves: &[u32],
) -> Result<Vec<u8>, AllocError>
    ensures { IfOk result (λ text. text.items ≡ journal_text workflow.now leaves.now) }
{
    let mut text = Vec::new(alloc);
    for leaf in leaves {
        push_leaf_line(&mut text, workflow, *leaf)?;
    }
    Ok(text)
}

/// Adds the line of a leaf to a text. Where there is no memory, the text is as it was.
pub fn push_leaf_line(text: &mut Vec<u8>, workflow: &Workflow, leaf: u32) -> Result<(), AllocError>
    ensures ok { OnOk result (text.new.items ≡ text.old.items ++ leaf_line workflow.now leaf) }
    ensures err { OnErr result (text.new.items ≡ text.old.items) }
{
    let before = text.len();
    let pushed = push_leaf_parts(text, workflow, leaf);
    if pushed.is_err() {
        text.truncate(before);
    }
    pushed
}

/// Adds the number of a leaf, its label and a line feed to a text.
fn push_leaf_parts(text: &mut Vec<u8>, workflow: &Workflow, leaf: u32) -> Result<(), AllocError>
    ensures grown { Begins text.new.items text.old.items }
    ensures ok { OnOk result (text.new.items ≡ text.old.items ++ leaf_line workflow.now leaf) }
{
    let mut digits = Buffer::new();
    text.extend_from_slice(digits.format(leaf).as_bytes())?;
    text.extend_from_slice(b" ")?;
    push_leaf_label(text, workflow, leaf)?;
    text.extend_from_slice(b"\n")
}

/// Reads the leaves of a journal. All lines are looked at before a wrong label is told.
pub fn read_journal(
    alloc: Global,
    workflow: &Workflow,
    text: &[u8],
) -> Result<Vec<u32>, RecordRefusal>
    ensures ok { IfOk result (λ read. journal_of workflow.now text.now ≡ journal read.items) }
    ensures bad { (line : ℕ) → IsErrOf result (RecordRefusal.BadLine line) → journal_of workflow.now text.now ≡ bad_line line }
    ensures wrong { (line : ℕ) → IsErrOf result (RecordRefusal.Label line) → journal_of workflow.now text.now ≡ wrong_label line }
{
    let mut reading = Reading {
        leaves: Vec::new(alloc),
        wrong: None,
        printed: Vec::new(alloc),
    };
    let mut rest = text;
    let mut number = 0;
    while !rest.is_empty() {
        if number >= MOST_LINES {
            return Err(RecordRefusal::BadLine { line: number });
        }
        let (line, more) = split_line(rest);
        reading.take_line(workflow, number, line)?;
        rest = more;
        number += 1;
    }
    reading.told()
}

/// What the lines of a journal say, as far as they are read.
#[derive(Drop)]
struct Reading {
    leaves: Vec<u32>,
    /// The least line so far with a wrong label.
    wrong: Option<u32>,
    /// The last label of a fact that was compared.
    printed: Vec<u8>,
}

impl Reading {
    /// Takes in the line of that number.
    fn take_line(
        &mut self,
        workflow: &Workflow,
        number: u32,
        line: &[u8],
    ) -> Result<(), RecordRefusal>
        ensures ok { OnOk result ((rest : JournalText) →
            after_lines self.old.leaves.items self.old.wrong (with_leaf_line workflow.now number line.now rest)
            ≡ after_lines self.new.leaves.items self.new.wrong rest) }
        ensures bad { (line_number : ℕ) → IsErrOf result (RecordRefusal.BadLine line_number) → (rest : JournalText) →
            after_lines self.old.leaves.items self.old.wrong (with_leaf_line workflow.now number line.now rest)
            ≡ bad_line line_number }
        ensures no_label { (line_number : ℕ) → ¬ (IsErrOf result (RecordRefusal.Label line_number)) }
    {
        if line.is_empty() {
            return Ok(());
        }
        match noted_leaf(line) {
            Some((leaf, label)) => {
                self.take_leaf(workflow, number, leaf, label)?;
                Ok(())
            }
            None => Err(RecordRefusal::BadLine { line: number }),
        }
    }

    /// Takes in what is noted on the line of that number. Once a label was wrong, the others are not looked at.
    fn take_leaf(
        &mut self,
        workflow: &Workflow,
        number: u32,
        leaf: u32,
        label: &[u8],
    ) -> Result<(), AllocError>
        ensures { OnOk result ((rest : JournalText) →
            after_lines self.old.leaves.items self.old.wrong (with_noted workflow.now number (Some (leaf, label.now)) rest)
            ≡ after_lines self.new.leaves.items self.new.wrong rest) }
    {
        if self.wrong.is_some() {
            return Ok(());
        }
        if is_label_of(&mut self.printed, workflow, leaf, label)? {
            self.leaves.push(leaf)?;
        } else {
            self.wrong = Some(number);
        }
        Ok(())
    }

    /// What all lines say.
    fn told(self) -> Result<Vec<u32>, RecordRefusal>
        ensures ok { IfOk result (λ read. after_lines self.leaves.items self.wrong (journal []) ≡ journal read.items) }
        ensures no_bad { (line : ℕ) → ¬ (IsErrOf result (RecordRefusal.BadLine line)) }
        ensures wrong { (line : ℕ) → IsErrOf result (RecordRefusal.Label line)
            → after_lines self.leaves.items self.wrong (journal []) ≡ wrong_label line }
    {
        match self.wrong {
            Some(line) => Err(RecordRefusal::Label { line }),
            None => Ok(self.leaves),
        }
    }
}

/// The leaf that a line notes and its label, if the line is as it must be.
fn noted_leaf(line: &[u8]) -> Option<(u32, &[u8])>
    ensures { MatchOption result (noted_leaf line.now ≡ None)
        (λ noted. noted_leaf line.now ≡ Some (noted.0, noted.1.now)) }
{
    match cut_at(line, b' ') {
        None | Some((_, [])) => None,
        Some((digits, label)) => match plain_number(digits) {
            Some(leaf) => Some((leaf, label)),
            None => None,
        },
    }
}

/// Whether the leaf is one of the workflow's and has that label. Where the label is of a fact, it is printed into the buffer.
fn is_label_of(
    printed: &mut Vec<u8>,
    workflow: &Workflow,
    leaf: u32,
    label: &[u8],
) -> Result<bool, AllocError>
    ensures { IfOk result (λ is. is ≡ is_label_of workflow.now leaf label.now) }
{
    let Some(known) = workflow.tree().label(leaf) else {
        return Ok(false);
    };
    if let Label::Event(event) = known {
        return Ok(workflow.event_name(event) == label);
    }
    printed.clear();
    push_label(printed, workflow, known)?;
    Ok(printed.as_slice() == label)
}
