ghost use Rattle.std.specs.Prelude.{◌≡◌};
ghost use Rattle.flow_lint.specs.Events.{happens, is_used, IsUnused};

use crate::question::Question;
use flow_model::Label;
use std::alloc::{AllocError, Global};

/// Whether the label is that event.
fn happens(label: Label, event: u32) -> bool
    ensures { result ≡ happens event label }
{
    match label {
        Label::Event(other) => other == event,
        Label::Test(_) | Label::Absent(_) | Label::Ins(_) | Label::Del(_) => false,
    }
}

/// Whether some leaf is an event of that number.
pub(crate) fn is_used(labels: &[Label], event: u32) -> bool
    ensures { result ≡ is_used labels.now event }
{
    labels.iter().any(|label| happens(*label, event))
}

/// Which events no leaf has.
#[derive(Clone, Copy)]
pub(crate) struct UnusedEvents<'a> {
    /// Of each leaf.
    pub(crate) labels: &'a [Label],
    /// How many events there are.
    pub(crate) events: u32,
}

impl Question for UnusedEvents<'_> {
    ghost size = { λ question. question.events };

    ghost is_so = { λ question event. IsUnused question.labels.now event };

    fn count(&self) -> usize {
        self.events as usize
    }

    fn ask(&self, _alloc: Global, number: u32) -> Result<bool, AllocError> {
        Ok(!is_used(self.labels, number))
    }
}
