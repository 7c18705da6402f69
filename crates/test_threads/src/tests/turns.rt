//! Four callers in threads of their own take turns at one list.
ghost use Rattle.std.specs.Thread.{IsSync};
ghost use Rattle.std.specs.Prelude.{◌≡◌, ◌+◌, ◌<◌};

use flow_turn::{Job, Kept, NewRefusal, Pass, TurnLock};
use std::sync::Wait;
use std::thread::{Threads, join};

const CALLERS: u32 = 4;

const TURNS: u32 = 100;

/// Which caller made the note, and in which of its turns.
#[derive(Clone, Copy)]
struct Note {
    by: u32,
    turn: u32,
}

#[derive(Drop)]
struct Notes {
    all: Vec<Note>,
}

impl Kept for Notes {
    type Entry = Note;

    type Fixed = ();

    ghost entries = { λ notes. notes.all.items };

    ghost caller = { λ note. note.by };

    ghost fixed = { λ _. tt };

    fn count(&self) -> u64 {
        self.all.len() as u64
    }
}

/// Adds a note of the turn, and says whether there was memory for it.
struct Write {
    turn: u32,
}

impl Job<Notes> for Write {
    type Answer = bool;

    ghost does = { λ _ _ _ _ _. Unit {0} };

    fn run(self, notes: &mut Notes, by: u32) -> bool {
        let Write { turn } = self;
        notes.all.push(Note { by, turn }).is_ok()
    }
}

// One caller's turns.
fn write_all<R: Wait>(rt: &R, lock: &TurnLock<Notes>, mut pass: Pass<Notes>) -> Pass<Notes>
    requires { pass.lock ≡ lock.now }
    ensures { result.lock ≡ lock.now }
{
    for turn in 0..TURNS {
        lock.with_turn(rt, &mut pass, Write { turn });
    }
    pass
}

// So many callers, each in a thread of its own with a pass of its own.
fn write_beside<R: Threads + Wait + Sync>(
    rt: &R,
    lock: &TurnLock<Notes>,
    mut root: Pass<Notes>,
    callers: u32,
) -> Pass<Notes>
    requires { (root.lock ≡ lock.now) × (root.number ≡ 0) × (root.given + callers < 4294967295) }
    ensures { (result.lock ≡ lock.now) × (result.number ≡ 0) × (result.given ≡ root.given + callers) × (result.outs ≡ root.outs) }
{
    if callers == 0 {
        return root;
    }
    let fewer = callers - 1;
    let pass = lock.split(&mut root);
    let (pass, mut root) = join(
        rt,
        || -> Pass<Notes>
            requires { pass.lock ≡ lock.now }
            ensures { result.lock ≡ lock.entry.now }
        { write_all(rt, lock, pass) },
        || -> Pass<Notes>
            requires { (root.lock ≡ lock.now) × (root.number ≡ 0) × (root.given + fewer < 4294967295) × IsSync R.row }
            ensures { (result.lock ≡ lock.entry.now) × (result.number ≡ 0) × (result.given ≡ root.given + fewer) × (result.outs ≡ root.outs) }
        { write_beside(rt, lock, root, fewer) },
    );
    lock.join(&mut root, pass);
    root
}

/// Whether the caller's notes are of all its turns, in order.
fn is_in_turn(notes: &[Note], caller: u32) -> bool {
    let mut turn = 0u32;
    for note in notes {
        if note.by == caller {
            if note.turn != turn {
                return false;
            }
            turn = turn.wrapping_add(1);
        }
    }
    turn == TURNS
}

#[test]
fn callers_take_turns(rt: HostRuntime) {
    let all = Vec::with_capacity(rt.alloc(), 400).expect(&rt, "memory");
    let Ok((lock, root)) = TurnLock::new(rt.alloc(), Notes { all }) else {
        panic!(&rt; "no memory")
    };
    let root = write_beside(&rt, &lock, root, CALLERS);
    assert_eq!(rt; (lock.given(&root), lock.outs(&root)), (CALLERS, 0));
    let Notes { all } = lock.close(root);
    assert_eq!(rt; all.len(), 400);
    for caller in 1..CALLERS + 1 {
        assert!(rt; is_in_turn(&all, caller), "at {caller}");
    }
}
