ghost use Rattle.std.specs.Prelude.{◌≡◌, ◌↔◌, ℕ, IfOk};
ghost use Rattle.flow_model.specs.Lists.{◌∈◌};
ghost use Rattle.flow_stages.specs.Asked.{IsNamedBy};

use std::alloc::{AllocError, Global};

/// What is asked of a workflow and its policy.
#[derive(Clone, Copy)]
pub enum Question {
    /// Whether one user can have both events.
    Both(u32, u32),
    /// Whether an event may be begun that nobody may take.
    Unmanned,
}

impl Question {
    /// The events that it names.
    pub(crate) fn events(self, alloc: Global) -> Result<Vec<u32>, AllocError>
        ensures { IfOk result (λ events. (e : ℕ) → (e ∈ events.items) ↔ IsNamedBy self e) }
    {
        match self {
            Question::Both(one, two) => Vec::from_slice(alloc, &[one, two]),
            Question::Unmanned => Ok(Vec::new(alloc)),
        }
    }
}
