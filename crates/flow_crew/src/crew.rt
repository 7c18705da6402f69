//! Several workers at one run.
ghost use Rattle.std.specs.Prelude.{◌≡◌, ◌+◌, ◌<◌, ◌≤◌, []};
ghost use Rattle.std.specs.Thread.{IsSync};
ghost use Rattle.flow_model.specs.declared.history.Entry.{Entry};
ghost use Rattle.flow_model.specs.declared.limits.TheConstants.{MOST_WORKERS};
ghost use Rattle.flow_model.specs.Lists.{Each};
ghost use Rattle.flow_crew.specs.Ends.{IsEnd};
ghost use Rattle.flow_crew.specs.Moves.{IsContinued, IsOfWorker, IsOfCrew};

use crate::book::Book;
use crate::idle::{AskWhenIdle, Idle};
use crate::jobs::{Post, PostAndBegin};
use crate::moves::Move;
use flow_core::End;
use flow_gate::Gate;
use flow_model::Call;
use flow_turn::{NewRefusal, Pass, TurnLock};
use std::alloc::Global;
use std::sync::Wait;
use std::thread::{Threads, join};

/// Runs the book by so many workers, which are the callers from 1 on, each in a thread of its own. The gate performs tasks
/// outside the lock. What they leave is finished as caller 0: all of it where there is no memory for a lock.
pub fn run_crew<R: Threads + Wait + Sync, G: Gate + Copy + Send>(
    rt: &R,
    alloc: Global,
    book: Book<G>,
    workers: u32,
) -> (Book<G>, End)
    requires empty { book.history ≡ [] }
    requires some { 1 ≤ workers }
    requires few { workers ≤ MOST_WORKERS }
    ensures end { IsEnd result.0 result.1 }
    ensures same { (result.0.definition ≡ book.definition) × (result.0.limit ≡ book.limit) }
    ensures callers { Each (λ (entry : Entry). entry.by ≤ workers) result.0.history }
    ensures crew { IsOfCrew workers result.0.history }
{
    // the gate is asked outside the lock
    let gate = book.gate;
    let mut book = work_all(rt, alloc, book, &gate, workers);
    let end = finish_rest(&mut book);
    (book, end)
}

/// Finishes what the workers left once they are joined, in the name of none of them.
fn finish_rest<G: Gate>(book: &mut Book<G>) -> End
    ensures end { IsEnd book.new result }
    ensures nobody { IsContinued book.old 0 book.new }
{
    book.finish(0)
}

/// What the workers make of the run: nothing where there is no memory for a lock.
fn work_all<R: Threads + Wait + Sync, G: Gate + Drop + Send>(
    rt: &R,
    alloc: Global,
    book: Book<G>,
    gate: &G,
    workers: u32,
) -> Book<G>
    requires empty { book.history ≡ [] }
    requires few { workers ≤ MOST_WORKERS }
    ensures same { (result.definition ≡ book.definition) × (result.limit ≡ book.limit) }
    ensures workers { Each (IsOfWorker workers) result.history }
{
    match TurnLock::new(alloc, book) {
        Ok((lock, root)) => {
            let idle = Idle::new();
            let root = work_beside(rt, &lock, &idle, gate, root, workers);
            lock.close(root)
        }
        Err(NewRefusal { value }) => value,
    }
}

/// So many workers, each in a thread of its own with a pass of its own.
fn work_beside<R: Threads + Wait + Sync, G: Gate + Drop + Send>(
    rt: &R,
    lock: &TurnLock<Book<G>>,
    idle: &Idle,
    gate: &G,
    mut root: Pass<Book<G>>,
    workers: u32,
) -> Pass<Book<G>>
    requires { (root.lock ≡ lock.now) × (root.number ≡ 0) × (root.given + workers < u32.MAX) }
    ensures { (result.lock ≡ lock.now) × (result.number ≡ 0) × (result.given ≡ root.given + workers) × (result.outs ≡ root.outs) × (result.part ≡ root.part) × (result.mine ≡ root.mine) }
{
    if workers == 0 {
        return root;
    }
    let fewer = workers - 1;
    let pass = lock.split(&mut root);
    let (pass, mut root) = join(
        rt,
        || -> Pass<Book<G>>
            requires { pass.lock ≡ lock.now }
            ensures { result.lock ≡ lock.entry.now }
        { work(rt, lock, idle, gate, pass) },
        || -> Pass<Book<G>>
            requires { (root.lock ≡ lock.now) × (root.number ≡ 0) × (root.given + fewer < u32.MAX) × IsSync R.row }
            ensures { (result.lock ≡ lock.entry.now) × (result.number ≡ 0) × (result.given ≡ root.given + fewer) × (result.outs ≡ root.outs) × (result.part ≡ root.part) × (result.mine ≡ root.mine) }
        { work_beside(rt, lock, idle, gate, root, fewer) },
    );
    lock.join(&mut root, pass);
    root
}

/// One worker: it asks what to do, and performs tasks, until the run has come to an end. Who waits asks again once woken.
fn work<R: Wait, G: Gate + Drop>(
    rt: &R,
    lock: &TurnLock<Book<G>>,
    idle: &Idle,
    gate: &G,
    mut pass: Pass<Book<G>>,
) -> Pass<Book<G>>
    requires { pass.lock ≡ lock.now }
    ensures { result.lock ≡ lock.now }
{
    let mut told = Move::Went;
    for _ in rt.forever() {
        told = match told {
            Move::Perform(call) => perform(rt, lock, idle, gate, &mut pass, call),
            Move::Went | Move::Wait(_) => ask(rt, lock, idle, &mut pass),
            Move::Over => break,
        };
    }
    idle.call_all();
    pass
}

/// Performs a task that the worker took, and asks in the turn in which it tells the outcome. First it calls one of the idle, for
/// which there may be another task.
fn perform<R: Wait, G: Gate + Drop>(
    rt: &R,
    lock: &TurnLock<Book<G>>,
    idle: &Idle,
    gate: &G,
    pass: &mut Pass<Book<G>>,
    call: Call,
) -> Move
    requires { pass.old.lock ≡ lock.now }
    ensures { pass.new.lock ≡ lock.now }
{
    idle.call_one();
    let outcome = gate.perform(call);
    let post = Post::new(call, outcome);
    lock.with_turn(rt, pass, PostAndBegin { post })
}

/// What the worker is to do. Where that is to wait, it sleeps until it is woken; it is counted among the idle before it asks,
/// so that it misses no call in between.
fn ask<R: Wait, G: Gate + Drop>(
    rt: &R,
    lock: &TurnLock<Book<G>>,
    idle: &Idle,
    pass: &mut Pass<Book<G>>,
) -> Move
    requires { pass.old.lock ≡ lock.now }
    ensures { pass.new.lock ≡ lock.now }
{
    let key = idle.count_in();
    let found = lock.with_turn(rt, pass, AskWhenIdle { idle });
    if let Move::Wait(_) = found {
        key.wait(rt);
    }
    found
}
