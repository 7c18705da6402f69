//! What a finding speaks of: where it stands in the text, and what it is called.

use crate::places::Places;
use flow_form::{Decl, Script};
use flow_goal::Tree;
use flow_lint::{Finding, Kind};
use flow_model::Label;
use flow_why_cli::places_of_leaf;
use flow_workflow::{Workflow, push_fact_after, push_leaf_label};
use std::alloc::{AllocError, Global};

/// A text, and what it says.
#[derive(Clone, Copy)]
pub(crate) struct Subject<'a> {
    pub(crate) text: &'a [u8],
    pub(crate) script: &'a Script,
    pub(crate) workflow: &'a Workflow,
    pub(crate) places: &'a Places,
}

/// Whether the label adds the fact, or asks for it.
fn has_fact(label: Label, fact: u32) -> bool {
    match label {
        Label::Test(other) | Label::Absent(other) | Label::Ins(other) => other == fact,
        Label::Event(_) | Label::Del(_) => false,
    }
}

/// The first leaf that adds the fact or asks for it.
fn leaf_with(tree: &Tree, fact: u32) -> Option<u32> {
    for leaf in 0..tree.leaves() {
        if let Some(label) = tree.label(leaf) {
            if has_fact(label, fact) {
                return Some(leaf);
            }
        }
    }
    None
}

/// The number of the declaration of a fact.
fn declaration_of_fact(decls: &[Decl], workflow: &Workflow, fact: u32) -> Option<usize> {
    for (number, decl) in decls.iter().enumerate() {
        if let Decl::Fact(declared) = decl {
            if workflow.facts().number_of(declared) == Some(fact) {
                return Some(number);
            }
        }
    }
    None
}

/// The number of the declaration of an event.
fn declaration_of_event(decls: &[Decl], event: u32) -> Option<usize> {
    let mut left = event;
    for (number, decl) in decls.iter().enumerate() {
        if let Decl::Event(..) = decl {
            if left == 0 {
                return Some(number);
            }
            left -= 1;
        }
    }
    None
}

impl Subject<'_> {
    /// Where a leaf stands in the text.
    fn leaf(&self, alloc: Global, leaf: u32) -> Result<Option<usize>, AllocError> {
        let places = places_of_leaf(alloc, self.text, leaf)?;
        Ok(places.last().copied())
    }

    /// Where a fact is declared, or else first asked for or added.
    fn fact(&self, alloc: Global, fact: u32) -> Result<Option<usize>, AllocError> {
        match declaration_of_fact(&self.script.decls, self.workflow, fact) {
            Some(number) => Ok(self.places.declarations.get(number).copied()),
            None => match leaf_with(self.workflow.tree(), fact) {
                Some(leaf) => self.leaf(alloc, leaf),
                None => Ok(None),
            },
        }
    }

    /// Where an event is declared.
    fn event(&self, event: u32) -> Option<usize> {
        let number = declaration_of_event(&self.script.decls, event)?;
        self.places.declarations.get(number).copied()
    }

    /// Where that of which the finding speaks stands in the text.
    pub(crate) fn place(
        &self,
        alloc: Global,
        finding: Finding,
    ) -> Result<Option<usize>, AllocError> {
        let number = finding.number as usize;
        match finding.kind {
            Kind::NeverAdded | Kind::NeverTested => self.fact(alloc, finding.number),
            Kind::UnusedEvent => Ok(self.event(finding.number)),
            Kind::UnusedFlow => Ok(self.places.declarations.get(number).copied()),
            Kind::DeadLeaf => self.leaf(alloc, finding.number),
            Kind::Redundant | Kind::Unsettled | Kind::Idle => {
                Ok(self.places.rules.get(number).copied())
            }
            Kind::IdleNop => Ok(self.places.nops.get(number).copied()),
            Kind::LoneIso => Ok(self.places.isos.get(number).copied()),
        }
    }

    /// Adds what that is called of which the finding speaks: a fact, an event, a sub-workflow, or the label of a leaf.
    pub(crate) fn push_name(&self, text: &mut Vec<u8>, finding: Finding) -> Result<(), AllocError> {
        match finding.kind {
            Kind::NeverAdded | Kind::NeverTested => {
                push_fact_after(text, self.workflow, b"", finding.number)
            }
            Kind::UnusedEvent => text.extend_from_slice(self.workflow.event_name(finding.number)),
            Kind::UnusedFlow => match self.script.decls.get(finding.number as usize) {
                Some(Decl::Flow(name, _)) => text.extend_from_slice(name.bytes()),
                _ => Ok(()),
            },
            Kind::DeadLeaf => push_leaf_label(text, self.workflow, finding.number),
            Kind::Redundant | Kind::Unsettled | Kind::Idle | Kind::IdleNop | Kind::LoneIso => {
                Ok(())
            }
        }
    }
}
