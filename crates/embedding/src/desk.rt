//! The gate of an order desk: what a program of your own writes anew.
ghost use Rattle.std.specs.Prelude.{◌≡◌, true, map, IfOk};
ghost use Rattle.embedding.specs.Desk.{task_named, task_at, amount_of, answer_to};

use flow_gate::{Call, Gate, Outcome};
use flow_workflow::Workflow;
use std::alloc::{AllocError, Global};

/// What the desk does where an event is to happen.
#[derive(Clone, Copy)]
pub enum Task {
    CheckCredit,
    ReserveStock,
    /// A step that needs nobody's leave.
    Other,
}

impl Task {
    /// The task of the event of that name.
    fn named(name: &[u8]) -> Task
        ensures { result ≡ task_named name.now }
    {
        if name == b"credit_ok".as_slice() {
            Task::CheckCredit
        } else if name == b"reserve_stock".as_slice() {
            Task::ReserveStock
        } else {
            Task::Other
        }
    }
}

/// An order, and what it is decided by: a row of a table has a number, and how much there is under it.
#[derive(Clone, Copy)]
pub struct Desk {
    pub customer: u32,
    pub amount: u32,
    pub article: u32,
    pub pieces: u32,
    /// How much each customer may owe.
    pub limits: &'static [(u32, u32)],
    /// How many pieces of each article are in stock.
    pub stock: &'static [(u32, u32)],
}

/// How much a table has under the number. What it does not know is none.
fn amount_of(table: &[(u32, u32)], number: u32) -> u32
    ensures { result ≡ amount_of table.now number }
{
    for (key, amount) in table {
        if *key == number {
            return *amount;
        }
    }
    0
}

/// Performs the tasks of a workflow at the desk.
#[derive(Drop)]
pub struct DeskGate {
    desk: Desk,
    /// What is to be done for each event, by the event's number.
    tasks: Vec<Task>,
}

impl DeskGate {
    /// The gate for this workflow. The names of its events are looked at here, and no more while it runs.
    pub fn new(alloc: Global, desk: Desk, workflow: &Workflow) -> Result<DeskGate, AllocError>
        ensures desk { IfOk result (λ gate. gate.desk ≡ desk) }
        ensures tasks { IfOk result (λ gate. gate.tasks.items ≡ map task_named workflow.now.events) }
    {
        let mut tasks = Vec::new(alloc);
        for name in workflow.events() {
            tasks.push(Task::named(name.bytes()))?;
        }
        Ok(DeskGate { desk, tasks })
    }
}

impl Gate for DeskGate {
    // what any gate of this type may answer, and desks may have any tables; the clause says what this one answers
    ghost gives = { λ _ _. true };

    fn perform(&self, call: Call) -> Outcome
        ensures gives { true ≡ true }
        ensures answer { result ≡ answer_to self.now.desk (task_at self.now.tasks.items call.event) }
    {
        // Here a program of your own calls its services, and takes its time: no other worker waits for it. `call.event` says what
        // to do, `call.claim` is the call's own number, and `call.attempt` counts how often the event was tried.
        let desk = &self.desk;
        let task = self.tasks.get(call.event as usize).copied();
        let is_done = match task.unwrap_or(Task::Other) {
            Task::CheckCredit => desk.amount <= amount_of(desk.limits, desk.customer),
            Task::ReserveStock => desk.pieces <= amount_of(desk.stock, desk.article),
            Task::Other => true,
        };
        // What is answered comes into the run by the worker that asked. After `Failed` the run goes another way, where it has one.
        if is_done {
            Outcome::Done
        } else {
            Outcome::Failed
        }
    }
}
