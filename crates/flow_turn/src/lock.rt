//! The lock, and all that is done with it.
use crate::entrance::Entrance;
use crate::kept::{Job, Kept};
use crate::pass::Pass;
use crate::rule::{Cut, Mend, Settle, TurnRule};
use crate::turn::take_turn;
use crate::view::View;
use atomic_table::{Closed, Refused, Table};
use std::alloc::Global;
use std::marker::Model;
use std::snapshot::Snapshot;
use std::sync::Wait;

type Desk<T> = Table<
    Option<T>,
    View<<T as Kept>::Entry, <T as Kept>::Fixed>,
    Snapshot<T>,
    TurnRule<T>,
    Global,
>;

/// A value that callers in threads of their own work on, one turn after another. A clause sees a lock as its name,
/// by which passes know it.
#[derive(Drop)]
pub struct TurnLock<T: Kept> {
    table: Desk<T>,
    entrance: Entrance,
}

impl<T: Kept> Model for TurnLock<T> {
    ghost use Rattle.std.specs.Prelude.{◌≡◌};
    ghost use Rattle.atomic_table.specs.Seated.{TableId, table_id_coded};

    ghost Value = { TableId };

    ghost coded = { table_id_coded };

    ghost view = { λ l. l.table.shared.table_id };

    ghost invariant = { λ l. (l.table.shared.table_id.words ≡ 3) × (l.table.shared.table_id.slots ≡ 1) };
}

/// There was no memory for a lock. The value comes back.
#[derive(Drop)]
pub struct NewRefusal<T: Kept> {
    pub value: T,
}

impl<T: Kept> TurnLock<T> {
    ghost use Rattle.std.specs.Prelude.{◌≡◌, ◌+◌, ◌-◌, ◌<◌, ◌≤◌, [], Some, IfOk, IfErr};
    ghost use Rattle.flow_model.specs.Lists.{Begins, Each};
    ghost use Rattle.flow_turn.specs.Entries.{Finds};
    ghost use Rattle.flow_turn.specs.Passes.{Knowledge, Turned, root_pass, split_pass, joined_root};

    /// A lock over the value, and its root pass. An error stands for want of memory alone.
    pub fn new(alloc: Global, value: T) -> Result<(TurnLock<T>, Pass<T>), NewRefusal<T>>
        requires { T.entries value ≡ [] }
        ensures ok { IfOk result (λ made. made.1 ≡ root_pass made.0 (T.fixed value)) }
        ensures err { IfErr result (λ refusal. refusal.value ≡ value) }
    {
        let key = Snapshot::of(&value);
        let mut slots = Vec::new(alloc);
        if let Err(failed) = slots.push(Some(value)) {
            return Err(NewRefusal {
                value: failed.value.unwrap(),
            });
        }
        match Table::new(alloc, &[0, 0, 0], slots, &key) {
            Ok((table, seat)) => Ok((
                TurnLock {
                    table,
                    entrance: Entrance::new(),
                },
                Pass {
                    seat,
                    number: 0,
                    given: 0,
                    outs: 0,
                },
            )),
            Err(Refused { mut slots }) => Err(NewRefusal {
                value: slots.pop().unwrap().unwrap(),
            }),
        }
    }

    /// Splits a pass from the root, with a number that no other pass of the lock had. It has seen what the root has.
    pub fn split(&self, root: &mut Pass<T>) -> Pass<T>
        requires lock { root.old.lock ≡ self.now }
        requires root { root.old.number ≡ 0 }
        requires room { root.old.given < u32.MAX }
        ensures root { root.new ≡ record root.old { given = root.old.given + 1; outs = root.old.outs + 1 } }
        ensures pass { result ≡ split_pass root.old }
    {
        let seat = self.table.shared.split_seat::<Cut>(&mut root.seat);
        root.given += 1;
        root.outs += 1;
        Pass {
            seat,
            number: root.given,
            given: 0,
            outs: 0,
        }
    }

    /// Waits for a turn, and does the job in it. It takes no memory. While it is the turn of another, other threads
    /// run. Nothing is said of how long that is.
    pub fn with_turn<R: Wait, J: Job<T>>(&self, rt: &R, pass: &mut Pass<T>, job: J) -> J::Answer
        requires { pass.old.lock ≡ self.now }
        ensures { Turned T.entries T.caller T.fixed (J.does job) pass.old result pass.new }
    {
        let top = &self.table.shared;
        take_turn(rt, top, &self.entrance, &mut pass.seat, pass.number, job)
    }

    /// Ends a pass, and the root has seen what it had.
    pub fn join(&self, root: &mut Pass<T>, pass: Pass<T>)
        requires lock { (root.old.lock ≡ self.now) × (pass.lock ≡ self.now) }
        requires root { root.old.number ≡ 0 }
        ensures root { Begins root.new.seen root.old.seen }
        ensures pass { Begins root.new.seen pass.seen }
        ensures rest { root.new ≡ joined_root root.old pass root.new.seen }
    {
        let shared = &self.table.shared;
        shared.join_seat::<Mend>(&mut root.seat, pass.into_seat());
        shared.load::<Settle>(&mut root.seat, 0);
        root.outs = root.outs.saturating_sub(1);
    }

    /// How many passes were split from the root and not joined.
    pub fn outs(&self, root: &Pass<T>) -> u64
        requires lock { root.now.lock ≡ self.now }
        requires root { root.now.number ≡ 0 }
        ensures { result ≡ root.now.outs }
    {
        root.outs
    }

    /// How many passes were split from the root.
    pub fn given(&self, root: &Pass<T>) -> u32
        requires lock { root.now.lock ≡ self.now }
        requires root { root.now.number ≡ 0 }
        ensures { result ≡ root.now.given }
    {
        root.given
    }

    /// Gives the value, where all passes but the root were joined. Each entry of its list names the number of a pass
    /// of this lock.
    pub fn close(self, root: Pass<T>) -> T
        requires lock { root.lock ≡ self }
        requires root { (root.number ≡ 0) × (root.outs ≡ 0) }
        ensures found { Finds T.entries T.caller T.fixed root.number root.seen root.mine root.joined root.part result }
        ensures callers { Each (λ entry. T.caller entry ≤ root.given) (T.entries result) }
    {
        let TurnLock { table, entrance: _ } = self;
        let mut closed = table.close_with(root.into_seat());
        let value = closed.take(0).unwrap();
        closed.free();
        value
    }
}
