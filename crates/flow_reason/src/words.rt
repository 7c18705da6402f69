use crate::reason::Reason;
use flow_model::Label;
use flow_standing::Out;
use flow_workflow::{Workflow, push_fact_after, push_leaf_label};
use itoa::Buffer;
use std::alloc::AllocError;

/// Adds words to a text.
fn push_words(text: &mut Vec<u8>, words: &str) -> Result<(), AllocError> {
    text.extend_from_slice(words.as_bytes())
}

/// Adds a number to a text.
fn push_number(text: &mut Vec<u8>, number: u64) -> Result<(), AllocError> {
    let mut digits = Buffer::new();
    push_words(text, digits.format(number))
}

/// Adds a leaf: its label, and its number behind that.
fn push_leaf(text: &mut Vec<u8>, workflow: &Workflow, leaf: u32) -> Result<(), AllocError> {
    push_leaf_label(text, workflow, leaf)?;
    push_words(text, " (leaf ")?;
    push_number(text, u64::from(leaf))?;
    push_words(text, ")")
}

/// Adds leaves with commas between them.
fn push_leaves(text: &mut Vec<u8>, workflow: &Workflow, leaves: &[u32]) -> Result<(), AllocError> {
    let mut before = "";
    for leaf in leaves {
        push_words(text, before)?;
        push_leaf(text, workflow, *leaf)?;
        before = ", ";
    }
    Ok(())
}

/// Adds numbers with commas between them.
fn push_numbers(text: &mut Vec<u8>, numbers: &[u32]) -> Result<(), AllocError> {
    let mut before = "";
    for number in numbers {
        push_words(text, before)?;
        push_number(text, u64::from(*number))?;
        before = ", ";
    }
    Ok(())
}

/// What is done with the leaf: an event is taken.
fn act_word(workflow: &Workflow, leaf: u32) -> &'static str {
    match workflow.tree().label(leaf) {
        Some(Label::Event(_)) => "taken",
        _ => "done",
    }
}

/// Adds which fact is not as it is wanted, and which leaves would make it so.
fn push_false(
    text: &mut Vec<u8>,
    workflow: &Workflow,
    fact: u32,
    wanted: bool,
    leaves: &[u32],
) -> Result<(), AllocError> {
    push_fact_after(text, workflow, b" waits: ", fact)?;
    push_words(
        text,
        if wanted {
            " does not hold; "
        } else {
            " holds; "
        },
    )?;
    if leaves.is_empty() {
        return push_words(text, "no leaf that is left changes that");
    }
    push_words(text, "it is changed by ")?;
    push_leaves(text, workflow, leaves)
}

/// Adds which constraints do not let the leaf come next.
fn push_constraints(
    text: &mut Vec<u8>,
    constraints: &[u32],
    undecided: &[u32],
) -> Result<(), AllocError> {
    push_words(text, " may not come next, by ")?;
    push_words(
        text,
        if constraints.len() == 1 {
            "constraint "
        } else {
            "constraints "
        },
    )?;
    push_numbers(text, constraints)?;
    if undecided.is_empty() {
        return Ok(());
    }
    push_words(text, "; perhaps not needed for that: ")?;
    push_numbers(text, undecided)
}

/// Adds which claims are in the way.
fn push_claims(text: &mut Vec<u8>, workflow: &Workflow, claims: &[Out]) -> Result<(), AllocError> {
    push_words(text, " waits for what is out: ")?;
    let mut before = "";
    for out in claims {
        push_words(text, before)?;
        push_leaf(text, workflow, out.call.leaf)?;
        push_words(text, ", claim ")?;
        push_number(text, u64::from(out.call.claim))?;
        before = "; ";
    }
    Ok(())
}

impl Reason {
    /// Adds the reason to a text, in words, without a line feed: names first, numbers behind them.
    pub fn print(
        &self,
        text: &mut Vec<u8>,
        workflow: &Workflow,
        leaf: u32,
    ) -> Result<(), AllocError> {
        match self {
            Reason::NoLeaf => {
                push_words(text, "there is no leaf ")?;
                return push_number(text, u64::from(leaf));
            }
            Reason::Over => return push_words(text, "the run is over"),
            _ => push_leaf(text, workflow, leaf)?,
        }
        self.print_cause(text, workflow, leaf)
    }

    /// Adds what is said of the leaf.
    fn print_cause(
        &self,
        text: &mut Vec<u8>,
        workflow: &Workflow,
        leaf: u32,
    ) -> Result<(), AllocError> {
        match self {
            Reason::NoLeaf | Reason::Over => Ok(()),
            Reason::Free => {
                push_words(text, " can be ")?;
                push_words(text, act_word(workflow, leaf))?;
                push_words(text, " now")
            }
            Reason::Done { entry } => {
                push_words(text, " is done, by entry ")?;
                push_number(text, *entry as u64)
            }
            Reason::Out { claim, entry, .. } => {
                push_words(text, " is out: claim ")?;
                push_number(text, u64::from(*claim))?;
                push_words(text, ", of entry ")?;
                push_number(text, *entry as u64)
            }
            Reason::False {
                fact,
                wanted,
                leaves,
            } => push_false(text, workflow, *fact, *wanted, leaves),
            Reason::OtherSide { leaf: other } => {
                push_words(text, " is on the other side of a choice than ")?;
                push_leaf(text, workflow, *other)?;
                push_words(text, ", which is done")
            }
            Reason::GivenUp => push_words(
                text,
                " was given up, or needs what was: a task failed, or the run stepped back",
            ),
            Reason::Waits { leaves } => {
                push_words(text, " may not come next, by the goal")?;
                if leaves.is_empty() {
                    return Ok(());
                }
                push_words(text, ": it waits for ")?;
                push_leaves(text, workflow, leaves)
            }
            Reason::Isolated { leaves } => {
                push_words(
                    text,
                    " waits for an isolated part that is begun; left of it: ",
                )?;
                push_leaves(text, workflow, leaves)
            }
            Reason::WaitsByConstraints {
                constraints,
                undecided,
            } => push_constraints(text, constraints, undecided),
            Reason::Claims { claims } => push_claims(text, workflow, claims),
            Reason::Barred => push_words(
                text,
                " may not come next, since something was given up: a task failed, or the run stepped back",
            ),
            Reason::Other => {
                push_words(text, " cannot be ")?;
                push_words(text, act_word(workflow, leaf))?;
                push_words(text, " now")
            }
        }
    }
}
