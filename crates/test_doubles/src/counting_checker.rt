use flow_audit::{Checker, Finding};
use flow_trace::Checked;
use std::alloc::{AllocError, Global};
use std::sync::atomic::{AtomicU32, Ordering};
use std::thread;

/// Each text is an execution. How many checks there were is counted, and how many of them were at work at once.
#[derive(Drop)]
pub struct CountingChecker {
    /// How often a check lets others go first.
    turns: u32,
    asked: AtomicU32,
    at_work: AtomicU32,
    most: AtomicU32,
}

impl CountingChecker {
    ghost use Rattle.std.specs.Prelude.{◌≡◌};

    /// A checker that was asked for no check. Each lets others go first so many times.
    pub fn new(turns: u32) -> CountingChecker
        ensures { result.turns ≡ turns }
    {
        CountingChecker {
            turns,
            asked: AtomicU32::new(0),
            at_work: AtomicU32::new(0),
            most: AtomicU32::new(0),
        }
    }

    /// How many checks there were.
    pub fn asked(&self) -> u32 {
        self.asked.load(Ordering::SeqCst)
    }

    /// The most checks that were at work at once.
    pub fn most_at_work(&self) -> u32 {
        self.most.load(Ordering::SeqCst)
    }
}

impl Checker for CountingChecker {
    ghost use Rattle.std.specs.Prelude.{◌≡◌};
    ghost use Rattle.flow_trace.specs.declared.checked.Checked.TheVariants.{Execution};
    ghost use Rattle.flow_audit.specs.declared.finding.Finding.TheVariants.{Checked};

    ghost finds = { λ _ _ finding. finding ≡ Checked Execution };

    fn check(&self, _alloc: Global, _text: &[u8]) -> Result<Finding, AllocError> {
        self.asked.fetch_add(1, Ordering::SeqCst);
        let others = self.at_work.fetch_add(1, Ordering::SeqCst);
        self.most
            .fetch_max(others.wrapping_add(1), Ordering::SeqCst);
        for _ in 0..self.turns {
            thread::yield_now();
        }
        self.at_work.fetch_sub(1, Ordering::SeqCst);
        Ok(Finding::Checked(Checked::Execution))
    }
}
