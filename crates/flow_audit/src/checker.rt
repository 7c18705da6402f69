ghost use Rattle.std.specs.Prelude.{IfOk, List, ℕ};

use crate::finding::Finding;
use std::alloc::{AllocError, Global};

/// Checks texts. Several threads may ask one checker at a time.
pub trait Checker: Sync {
    ghost use Rattle.flow_audit.specs.declared.finding.Finding.{Finding};

    // What this checker may find of a text.
    ghost finds: { Self → List ℕ → Finding → Type 0 };

    /// Checks a text. An error is want of memory.
    fn check(&self, alloc: Global, text: &[u8]) -> Result<Finding, AllocError>
        ensures { IfOk result (λ finding. finds self.now text.now finding) };
}
