ghost use Rattle.std.specs.Prelude.{◌≡◌, ◌++◌, OnOk, OnErr};
ghost use Rattle.flow_workflow.specs.Label.{event_name, fact_at, label_text, leaf_text};

use crate::workflow::Workflow;
use flow_facts::push_fact;
use flow_model::Label;
use std::alloc::AllocError;

impl Workflow {
    /// The name of the event of that number. It is empty where there is no such event.
    pub fn event_name(&self, event: u32) -> &[u8]
        ensures { result.now ≡ event_name self.now event }
    {
        match self.events().get(event as usize) {
            Some(name) => name.bytes(),
            None => &[],
        }
    }
}

/// Adds the label of a leaf to a text. Where there is no memory, the text is as it was, and so it is where there is no such leaf.
pub fn push_leaf_label(text: &mut Vec<u8>, workflow: &Workflow, leaf: u32) -> Result<(), AllocError>
    ensures ok { OnOk result (text.new.items ≡ text.old.items ++ leaf_text workflow.now leaf) }
    ensures err { OnErr result (text.new.items ≡ text.old.items) }
{
    match workflow.tree().label(leaf) {
        Some(label) => push_label(text, workflow, label),
        None => Ok(()),
    }
}

/// Adds a label to a text: an event's name, or what is asked of a fact or done to it. Where there is no memory, the text is as it was.
pub fn push_label(text: &mut Vec<u8>, workflow: &Workflow, label: Label) -> Result<(), AllocError>
    ensures ok { OnOk result (text.new.items ≡ text.old.items ++ label_text workflow.now label) }
    ensures err { OnErr result (text.new.items ≡ text.old.items) }
{
    match label {
        Label::Event(event) => text.extend_from_slice(workflow.event_name(event)),
        Label::Test(fact) => push_fact_after(text, workflow, b"?", fact),
        Label::Absent(fact) => push_fact_after(text, workflow, b"!", fact),
        Label::Ins(fact) => push_fact_after(text, workflow, b"ins ", fact),
        Label::Del(fact) => push_fact_after(text, workflow, b"del ", fact),
    }
}

/// Adds what stands before a fact, and the fact of that number, if there is one. Where there is no memory, the text is as it was.
pub fn push_fact_after(
    text: &mut Vec<u8>,
    workflow: &Workflow,
    before: &[u8],
    number: u32,
) -> Result<(), AllocError>
    ensures ok { OnOk result (text.new.items ≡ text.old.items ++ before.now ++ fact_at workflow.now number) }
    ensures err { OnErr result (text.new.items ≡ text.old.items) }
{
    let start = text.len();
    text.extend_from_slice(before)?;
    let Some(fact) = workflow.facts().fact(number) else {
        return Ok(());
    };
    let pushed = push_fact(text, fact);
    if pushed.is_err() {
        text.truncate(start);
    }
    pushed
}
