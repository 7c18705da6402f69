//! What callers do to a run in their turns.
ghost use Rattle.std.specs.Prelude.{◌≡◌, true};
ghost use Rattle.flow_crew.specs.Moves.{IsBegun, IsPosted, IsPostedAndBegun};

use crate::book::Book;
use crate::moves::Move;
use flow_gate::Gate;
use flow_model::{Call, Entry, Outcome};
use flow_turn::{Job, Kept};
use flow_workflow::Workflow;
use std::marker::PhantomData;

impl<G: Gate + Drop> Kept for Book<G> {
    type Entry = Entry;

    // the workflow and the limit
    type Fixed = (Workflow, u32);

    ghost entries = { λ run. run.history };

    ghost caller = { λ entry. entry.by };

    ghost fixed = { λ run. (run.definition, run.limit) };

    fn count(&self) -> u64 {
        self.tracked.core().history().len() as u64
    }
}

/// The caller asks what to do, as by `Book::begin`.
#[derive(Clone, Copy)]
pub struct Begin;

impl<G: Gate + Drop> Job<Book<G>> for Begin {
    type Answer = Move;

    ghost does = { λ _ run by move after. IsBegun run by move after };

    fn run(self, book: &mut Book<G>, by: u32) -> Move {
        book.tracked.begin(by)
    }
}

/// The caller tells the outcome of a task, which the gate gave, as by `Book::post`.
pub struct Post<G: Gate> {
    pub call: Call,
    pub outcome: Outcome,
    gate: PhantomData<G>,
    ghost given: { G.gives call outcome ≡ true },
}

impl<G: Gate> Post<G> {
    pub fn new(call: Call, outcome: Outcome) -> Post<G>
        requires { G.gives call outcome ≡ true }
        ensures call { result.call ≡ call }
        ensures outcome { result.outcome ≡ outcome }
    {
        Post {
            call,
            outcome,
            gate: PhantomData,
        }
    }
}

impl<G: Gate + Drop> Job<Book<G>> for Post<G> {
    type Answer = ();

    ghost does = { λ job run by _ after. IsPosted run job.call job.outcome by after };

    fn run(self, book: &mut Book<G>, by: u32) {
        let Post {
            call,
            outcome,
            gate: _,
        } = self;
        book.tracked.post(call, outcome, by);
    }
}

/// The caller tells the outcome of a task and asks what to do next, as by `Book::post` and then `Book::begin`, in one turn.
pub struct PostAndBegin<G: Gate> {
    pub post: Post<G>,
}

impl<G: Gate + Drop> Job<Book<G>> for PostAndBegin<G> {
    type Answer = Move;

    ghost does = { λ job run by move after. IsPostedAndBegun run job.post.call job.post.outcome by move after };

    fn run(self, book: &mut Book<G>, by: u32) -> Move {
        let PostAndBegin { post } = self;
        post.run(book, by);
        Begin.run(book, by)
    }
}
