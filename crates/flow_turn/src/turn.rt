//! One turn at the table behind a lock: a ticket is drawn, the caller waits until it is served, does its job with the
//! value in its slot, counts what was added and passes the turn on.
ghost use Rattle.std.specs.Prelude.{◌≡◌, ◌≢◌, ◌%◌, ◌^◌, not, [], ◌∷◌, IsTrue, Some};
ghost use Rattle.flow_turn.specs.declared.view.Stage.TheVariants.{Waiting};
ghost use Rattle.flow_turn.specs.Steps.{drew, Takes};
ghost use Rattle.flow_turn.specs.Passes.{IsAtRest, IsSameSeat, IsOfTable, HasTurn, known_of, Works, Turned};

use crate::entrance::Entrance;
use crate::kept::{Job, Kept};
use crate::rule::{Count, Draw, Look, PassOn, TurnRule};
use crate::view::View;
use atomic_table::{Seat, Shared};
use std::snapshot::Snapshot;
use std::sync::Wait;
use std::thread;

// The words: the tickets drawn, the tickets served, and the entries, each modulo 2^64.
const DRAWN: usize = 0;

const SERVED: usize = 1;

const ENTRIES: usize = 2;

// The slot of the value.
const VALUE: usize = 0;

pub(crate) type Top<T> = Shared<
    Option<T>,
    View<<T as Kept>::Entry, <T as Kept>::Fixed>,
    Snapshot<T>,
    TurnRule<T>,
>;

pub(crate) type Chair<T> = Seat<Option<T>, View<<T as Kept>::Entry, <T as Kept>::Fixed>>;

// Draws a ticket, and answers what was found in its word.
fn draw<T: Kept>(top: &Top<T>, seat: &mut Chair<T>) -> u64
    requires table { IsOfTable top.now.table_id seat.old }
    requires rest { IsAtRest seat.old }
    ensures same { IsSameSeat seat.old seat.new }
    ensures drew { drew seat.old.me result seat.new.me }
{
    top.fetch_add::<Draw>(seat, DRAWN, 1)
}

// Whether the ticket is served. If so, the value is out with the seat.
fn is_served<T: Kept>(top: &Top<T>, seat: &mut Chair<T>, ticket: u64) -> bool
    requires table { IsOfTable top.now.table_id seat.old }
    requires waits { (seat.old.me.0.stage ≡ Waiting) × (ticket ≡ seat.old.me.0.ticket % 2 ^ 64) }
    ensures same { IsSameSeat seat.old seat.new }
    ensures turn { IsTrue result → Takes T.entries T.caller T.fixed seat.old.me seat.new.me }
    ensures other { IsTrue (not result) → seat.new.me ≡ seat.old.me }
{
    top.load::<Look>(seat, SERVED) == ticket
}

// Waits until the ticket is served. One that was drawn inside the entrance is served at once.
fn wait<T: Kept, R: Wait>(rt: &R, top: &Top<T>, seat: &mut Chair<T>, ticket: u64)
    requires table { IsOfTable top.now.table_id seat.old }
    requires waits { (seat.old.me.0.stage ≡ Waiting) × (ticket ≡ seat.old.me.0.ticket % 2 ^ 64) }
    ensures same { IsSameSeat seat.old seat.new }
    ensures turn { Takes T.entries T.caller T.fixed seat.old.me seat.new.me }
{
    for _ in rt.forever() {
        if is_served(top, seat, ticket) {
            return;
        }
        thread::yield_now();
    }
    unreachable!()
}

// Does the job on a value that the seat took, and counts the entries that it added.
fn work<T: Kept, J: Job<T>>(top: &Top<T>, seat: &mut Chair<T>, by: u32, job: J) -> J::Answer
    requires table { IsOfTable top.now.table_id seat.old }
    requires turn { HasTurn T.entries T.fixed seat.old }
    requires number { seat.old.me.0.number ≡ by }
    ensures same { IsSameSeat seat.old seat.new }
    ensures turn { HasTurn T.entries T.fixed seat.new }
    ensures works { (before : T) × (seat.old.me.1 ≡ (0, Some before) ∷ []) × Works T.entries T.caller T.fixed (J.does job) before (known_of seat.old) result (known_of seat.new) }
{
    let value = seat.slot_mut(top, VALUE).as_mut().unwrap();
    let before = value.count();
    let answer = job.run(value, by);
    let added = value.count() - before;
    top.fetch_add::<Count>(seat, ENTRIES, added);
    answer
}

// Gives the value back and passes the turn on.
fn pass_on<T: Kept>(top: &Top<T>, seat: &mut Chair<T>)
    requires table { IsOfTable top.now.table_id seat.old }
    requires turn { HasTurn T.entries T.fixed seat.old }
    ensures same { IsSameSeat seat.old seat.new }
    ensures rest { IsAtRest seat.new }
    ensures known { known_of seat.new ≡ known_of seat.old }
{
    top.fetch_add::<PassOn>(seat, SERVED, 1);
}

// One turn, of the caller with the number `by`.
pub(crate) fn take_turn<T: Kept, J: Job<T>, R: Wait>(
    rt: &R,
    top: &Top<T>,
    entrance: &Entrance,
    seat: &mut Chair<T>,
    by: u32,
    job: J,
) -> J::Answer
    requires table { IsOfTable top.now.table_id seat.old }
    requires rest { IsAtRest seat.old }
    requires number { seat.old.me.0.number ≡ by }
    ensures same { IsSameSeat seat.old seat.new }
    ensures rest { IsAtRest seat.new }
    ensures turned { Turned T.entries T.caller T.fixed (J.does job) (known_of seat.old) result (known_of seat.new) }
{
    entrance.enter(rt);
    let ticket = draw(top, seat);
    wait(rt, top, seat, ticket);
    let answer = work(top, seat, by, job);
    pass_on(top, seat);
    entrance.leave();
    answer
}
