//! How far an option is done.
ghost use Rattle.std.specs.Prelude.{◌≡◌, ◌<◌, ◌↔◌, ◌++◌, ◌∷◌, [], ℕ, List, Bool, IsTrue, IfOk, MatchOption, true, false, ◌==◌, if◌then◌else◌, slice_get};
ghost use Rattle.flow_model.specs.declared.limits.TheConstants.{MOST_LEAVES};
ghost use Rattle.flow_model.specs.Facts.{state_with, Holds};
ghost use Rattle.flow_model.specs.Schema.{Schema};
ghost use Rattle.flow_stages.specs.Stages.{IsAfter, state_after};

use flow_model::{Label, MOST_LEAVES};
use leaf_rows::{LEAF_WORDS, LeafSet};
use std::alloc::{AllocError, Global};

/// What was done of an option, in whatever order, and the facts that hold then. What may come next depends on nothing else.
#[derive(Drop)]
pub struct Stage {
    pub(crate) done: LeafSet<LEAF_WORDS>,
    pub(crate) held: Vec<u32>,
}

/// The facts and that one.
fn with_fact(alloc: Global, held: &[u32], fact: u32) -> Result<Vec<u32>, AllocError>
    ensures { IfOk result (λ left. (f : ℕ) → state_with left.items f ≡ (if f == fact then true else state_with held.now f)) }
{
    let mut left = Vec::from_slice(alloc, held)?;
    if !left.contains(&fact) {
        left.push(fact)?;
    }
    Ok(left)
}

/// The facts without that one.
fn without_fact(alloc: Global, held: &[u32], fact: u32) -> Result<Vec<u32>, AllocError>
    ensures { IfOk result (λ left. (f : ℕ) → state_with left.items f ≡ (if f == fact then false else state_with held.now f)) }
{
    let mut left = Vec::new(alloc);
    for other in held {
        if *other != fact {
            left.push(*other)?;
        }
    }
    Ok(left)
}

/// The facts that hold once the label is performed. A leaf that has none changes nothing.
fn held_after(alloc: Global, held: &[u32], label: Option<Label>) -> Result<Vec<u32>, AllocError>
    ensures { IfOk result (λ left. (f : ℕ) → state_with left.items f ≡ state_after label (state_with held.now) f) }
{
    match label {
        Some(Label::Ins(fact)) => with_fact(alloc, held, fact),
        Some(Label::Del(fact)) => without_fact(alloc, held, fact),
        _ => Vec::from_slice(alloc, held),
    }
}

impl Stage {
    /// Nothing is done yet.
    pub(crate) fn first(alloc: Global, held: &[u32]) -> Result<Stage, AllocError>
        ensures { (w : Schema) → w.facts ≡ held.now → IfOk result (IsAfter w []) }
    {
        Ok(Stage {
            done: LeafSet::new(),
            held: Vec::from_slice(alloc, held)?,
        })
    }

    /// Whether the label may be performed.
    fn lets_label(&self, label: Label) -> bool
        ensures { IsTrue result ↔ Holds (state_with self.now.held.items) label }
    {
        match label {
            Label::Event(_) | Label::Ins(_) | Label::Del(_) => true,
            Label::Test(fact) => self.held.contains(&fact),
            Label::Absent(fact) => !self.held.contains(&fact),
        }
    }

    /// Whether the label of a leaf may be performed, if it has one.
    pub(crate) fn lets(&self, label: Option<Label>) -> bool
        ensures { IsTrue result ↔ MatchOption label (Unit {0}) (Holds (state_with self.now.held.items)) }
    {
        match label {
            Some(label) => self.lets_label(label),
            None => true,
        }
    }

    /// The stage once the leaf is done, which has that label.
    pub(crate) fn with(
        &self,
        alloc: Global,
        leaf: u32,
        label: Option<Label>,
    ) -> Result<Stage, AllocError>
        requires { leaf < MOST_LEAVES }
        ensures { (w : Schema) (list : List ℕ) → slice_get w.labels leaf ≡ label → IsAfter w list self.now → IfOk result (IsAfter w (list ++ leaf ∷ [])) }
    {
        let mut done = self.done;
        done.insert(leaf);
        let held = held_after(alloc, &self.held, label)?;
        Ok(Stage { done, held })
    }

    /// Whether it is the same as the other, as far as is looked at: the same leaves are done, and the same facts hold in the same order.
    pub(crate) fn is_as(&self, other: &Stage) -> bool
        ensures { (w : Schema) (list : List ℕ) → IsTrue result → IsAfter w list other.now → IsAfter w list self.now }
    {
        self.done.is_subset(&other.done)
            && other.done.is_subset(&self.done)
            && self.held.as_slice() == other.held.as_slice()
    }
}
