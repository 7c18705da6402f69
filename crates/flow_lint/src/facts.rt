ghost use Rattle.std.specs.Prelude.{◌≡◌, ◌==◌, ◌||◌};
ghost use Rattle.std.specs.List.{list_any};
ghost use Rattle.flow_lint.specs.Facts.{adds, asks, is_added, is_tested, IsNeverAdded, IsNeverTested};

use crate::question::Question;
use flow_model::Label;
use std::alloc::{AllocError, Global};

/// Whether the label asks whether the fact holds.
fn asks(label: Label, fact: u32) -> bool
    ensures { result ≡ asks fact label }
{
    match label {
        Label::Test(other) | Label::Absent(other) => other == fact,
        Label::Event(_) | Label::Ins(_) | Label::Del(_) => false,
    }
}

/// Whether the label adds the fact.
fn adds(label: Label, fact: u32) -> bool
    ensures { result ≡ adds fact label }
{
    match label {
        Label::Ins(other) => other == fact,
        Label::Event(_) | Label::Test(_) | Label::Absent(_) | Label::Del(_) => false,
    }
}

/// Whether some leaf asks whether the fact holds.
fn is_tested(labels: &[Label], fact: u32) -> bool
    ensures { result ≡ is_tested labels.now fact }
{
    labels.iter().any(|label| asks(*label, fact))
}

/// Whether some leaf adds the fact.
fn is_inserted(labels: &[Label], fact: u32) -> bool
    ensures { result ≡ list_any (adds fact) labels.now }
{
    labels.iter().any(|label| adds(*label, fact))
}

/// Whether the fact holds at the start, or some leaf adds it.
fn is_added(labels: &[Label], held: &[u32], fact: u32) -> bool
    ensures { result ≡ is_added labels.now held.now fact }
{
    held.contains(&fact) || is_inserted(labels, fact)
}

/// Which facts are tested and never added.
#[derive(Clone, Copy)]
pub(crate) struct NeverAdded<'a> {
    /// Of each leaf.
    pub(crate) labels: &'a [Label],
    /// What holds at the start.
    pub(crate) held: &'a [u32],
    /// How many facts there are.
    pub(crate) facts: u32,
}

impl Question for NeverAdded<'_> {
    ghost size = { λ question. question.facts };

    ghost is_so = { λ question fact. IsNeverAdded question.labels.now question.held.now fact };

    fn count(&self) -> usize {
        self.facts as usize
    }

    fn ask(&self, _alloc: Global, number: u32) -> Result<bool, AllocError> {
        Ok(is_tested(self.labels, number) && !is_added(self.labels, self.held, number))
    }
}

/// Which facts are added and never tested.
#[derive(Clone, Copy)]
pub(crate) struct NeverTested<'a> {
    /// Of each leaf.
    pub(crate) labels: &'a [Label],
    /// What holds at the start.
    pub(crate) held: &'a [u32],
    /// How many facts there are.
    pub(crate) facts: u32,
}

impl Question for NeverTested<'_> {
    ghost size = { λ question. question.facts };

    ghost is_so = { λ question fact. IsNeverTested question.labels.now question.held.now fact };

    fn count(&self) -> usize {
        self.facts as usize
    }

    fn ask(&self, _alloc: Global, number: u32) -> Result<bool, AllocError> {
        Ok(is_added(self.labels, self.held, number) && !is_tested(self.labels, number))
    }
}
