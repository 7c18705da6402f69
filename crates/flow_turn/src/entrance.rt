//! Where callers wait before they draw a ticket.
use std::hint;
use std::sync::Wait;
use std::sync::atomic::{AtomicBool, Ordering};
use std::thread::Parker;
use std::time::Duration;

// How often a caller looks before it naps, and how many microseconds it naps. Looks take the word from who is inside, so there are few;
// a nap ends some 50 microseconds later than it says.
const LOOKS: u32 = 20;

const NAP: u64 = 20;

/// One caller at a time is inside, and draws its ticket there, so the ticket is served at once. Whoever finds nobody inside goes in, and
/// nobody is called: the others look again by themselves. So a caller whose tasks take no time has turn after turn, with all that it
/// needs in its processor's memory, and loses no time to the others. A caller may be passed over, but not for long where its outcome is
/// waited for: then the others have nothing to do here. Proofs rest on the tickets, and nothing on this.
#[derive(Drop)]
pub(crate) struct Entrance {
    is_taken: AtomicBool,
}

impl Entrance {
    pub(crate) fn new() -> Entrance {
        Entrance {
            is_taken: AtomicBool::new(false),
        }
    }

    /// Goes in, once nobody is inside.
    pub(crate) fn enter<R: Wait>(&self, rt: &R) {
        for _ in rt.forever() {
            if self.enters_soon() {
                return;
            }
            Parker::new().park_timeout(rt, Duration::from_micros(NAP));
        }
        unreachable!()
    }

    /// Looks a while, and tells whether the caller is inside.
    fn enters_soon(&self) -> bool {
        for _ in 0..LOOKS {
            if self.enters_now() {
                return true;
            }
            hint::spin_loop();
        }
        false
    }

    fn enters_now(&self) -> bool {
        !self.is_taken.load(Ordering::SeqCst) && !self.is_taken.swap(true, Ordering::SeqCst)
    }

    pub(crate) fn leave(&self) {
        self.is_taken.store(false, Ordering::SeqCst);
    }
}
