//! Workers that are at work at once, and what they ask of their gate.
ghost use Rattle.std.specs.Prelude.{true};

use flow_cli::{Status, flow};
use flow_gate::{Call, Gate, NoteGate, Outcome, TableGate};
use std::alloc::{AllocError, Global};
use std::sync::Wait;
use std::sync::atomic::{AtomicBool, Ordering};
use std::test::Fail;
use std::thread;
use std::thread::Threads;
use test_doubles::{CountingGate, MeetGate, MemSink, MemSource};

/// More bytes than are written here.
const ROOM: usize = 200_000;

/// How often a task looks for the others.
const TURNS: u64 = 1_000_000_000;

/// The same, where 64 tasks look for each other.
const FEWER_TURNS: u64 = 1_000_000;

/// How often a task lets others go first whose time is to be long.
const LONG: u32 = 200_000;

/// `examples/order_desk.flow`.
const ORDER_DESK: &str = "event receive, check_form, ask_back, register;
event credit_hold, credit_low, credit_full, credit_ok;
event reserve, backorder, pick, pack, weigh;
event label_home, label_abroad, customs, book_van, book_mail;
event invoice, pay_card, pay_transfer, remind, post_payment;
event ship, track, notify_mail, notify_text, close_order, archive, survey;

flow entry = receive * check_form * (ask_back + nop) * register;
flow credit = iso(credit_hold * (credit_low + credit_full) * credit_ok);
flow goods = (reserve + backorder) * iso(pick * pack * weigh)
           * (label_home + label_abroad * customs) * (book_van + book_mail);
flow money = invoice * (pay_card + pay_transfer * remind)
           * post_payment * ins paid(order_1);

goal entry * (credit | goods | money) * ?paid(order_1) * ship
   * (track | notify_mail | notify_text) * close_order * (archive | survey);

constraint precedes credit_ok pick;
constraint precedes post_payment book_van;
constraint precedes archive survey;
constraint needs label_abroad pay_transfer;
constraint needs credit_low pay_card;
";

/// The words of a command line.
fn words_of(alloc: Global, line: &str) -> Result<Vec<String>, AllocError> {
    let mut words = Vec::new(alloc);
    for word in line.split_whitespace() {
        words.push(String::from_str(alloc, word)?)?;
    }
    Ok(words)
}

/// How the workflow is run by that command line, and what is written.
pub(crate) fn ran<R: AllocGlobal + Threads + Wait + Sync, G: Gate>(
    rt: &R,
    line: &str,
    workflow: &str,
    gate: &G,
) -> Result<(Status, Vec<u8>), AllocError> {
    let words = words_of(rt.alloc(), line)?;
    let mut source = MemSource::new(workflow.as_bytes().to_vec(rt.alloc())?);
    let mut sink = MemSink::new(rt.alloc(), ROOM)?;
    let status = flow(rt, rt.alloc(), &words, &mut source, &mut sink, gate);
    let text = sink.bytes().to_vec(rt.alloc())?;
    Ok((status, text))
}

/// How many lines of the text have the word as their second.
fn lines_with(text: &str, word: &str) -> u32 {
    let mut count = 0u32;
    for line in text.lines() {
        if line.split_whitespace().nth(1) == Some(word) {
            count = count.wrapping_add(1);
        }
    }
    count
}

/// Whether the run is committed, and no line of it has the word as its second.
fn is_fine_without(told: Result<(Status, Vec<u8>), AllocError>, word: &str) -> bool {
    match told {
        Ok((status, text)) => match std::str::from_utf8(&text) {
            Ok(text) => status == Status::Fine && lines_with(text, word) == 0,
            Err(_) => false,
        },
        Err(_) => false,
    }
}

#[test]
fn two_workers_meet(rt: HostRuntime) {
    let gate = MeetGate::new(0, 1, TURNS);
    let told = ran(
        &rt,
        "flow run --workers 2",
        "event a, b; goal a | b;",
        &gate,
    );
    assert!(rt; is_fine_without(told, "failed"));
}

#[test]
fn one_worker_meets_nobody(rt: HostRuntime) -> Result<(), Fail> {
    // nobody comes, however long a task looks
    let gate = MeetGate::new(0, 1, 1000);
    let workflow = "event a, b; goal a | b;";
    let (status, report) = ran(&rt, "flow run --workers 1", workflow, &gate)?;
    assert!(rt; status == Status::No);
    assert_eq!(rt; lines_with(std::str::from_utf8(&report)?, "failed"), 1);
    Ok(())
}

/// A first task that takes long, before two that are done only where each sees the other at work.
#[derive(Drop)]
struct LongFirst {
    others: MeetGate,
}

impl Gate for LongFirst {
    ghost gives = { λ _ _. true };

    fn perform(&self, call: Call) -> Outcome {
        if call.leaf == 0 {
            for _ in 0..LONG {
                thread::yield_now();
            }
        }
        self.others.perform(call)
    }
}

/// A worker finds nothing to do before the first task is done: it has to wait, and to come back.
#[test]
fn who_waits_comes_back(rt: HostRuntime) {
    let gate = LongFirst {
        others: MeetGate::new(1, 2, TURNS),
    };
    let workflow = "event a, b, c; goal a * (b | c);";
    let told = ran(&rt, "flow run --workers 2", workflow, &gate);
    assert!(rt; is_fine_without(told, "failed"));
}

/// Tasks that succeed only where each sees all others at work.
#[derive(Drop)]
struct AllMeet {
    came: Vec<AtomicBool>,
    /// How often a task looks for the others.
    turns: u64,
}

impl AllMeet {
    fn new(alloc: Global, tasks: u32, turns: u64) -> Result<AllMeet, AllocError> {
        let mut came = Vec::new(alloc);
        for _ in 0..tasks {
            came.push(AtomicBool::new(false))?;
        }
        Ok(AllMeet { came, turns })
    }

    fn have_come(&self) -> bool {
        for flag in &self.came {
            if !flag.load(Ordering::SeqCst) {
                return false;
            }
        }
        true
    }
}

impl Gate for AllMeet {
    ghost gives = { λ _ _. true };

    fn perform(&self, call: Call) -> Outcome {
        if let Some(flag) = self.came.get(call.leaf as usize) {
            flag.store(true, Ordering::SeqCst);
        }
        for turn in 0..self.turns {
            if self.have_come() {
                return Outcome::Done;
            }
            // there may be more tasks than processors
            if turn % 64 == 0 {
                thread::yield_now();
            }
        }
        Outcome::Failed
    }
}

/// `e0, e1, e2` for the three first events and a comma between them.
pub(crate) fn events(alloc: Global, count: u32, between: &str) -> Result<String, AllocError> {
    let mut text = String::new(alloc);
    for number in 0..count {
        if number > 0 {
            text.push_str(between)?;
        }
        text.push_str(&format!(in alloc; "e{number}")?)?;
    }
    Ok(text)
}

/// How a run of so many tasks, which are all to be at work at once, comes out by as many workers.
fn met<R: AllocGlobal + Threads + Wait + Sync>(
    rt: &R,
    tasks: u32,
    turns: u64,
) -> Result<(Status, Vec<u8>), AllocError> {
    let alloc = rt.alloc();
    let declared = events(alloc, tasks, ", ")?;
    let beside = events(alloc, tasks, " | ")?;
    let workflow = format!(in alloc; "event {declared}; goal {beside};")?;
    let line = format!(in alloc; "flow run --workers {tasks}")?;
    let gate = AllMeet::new(alloc, tasks, turns)?;
    ran(rt, &line, &workflow, &gate)
}

#[test]
fn four_workers_meet(rt: HostRuntime) {
    assert!(rt; is_fine_without(met(&rt, 4, TURNS), "failed"));
}

#[test]
fn as_many_workers_as_can_be_meet(rt: HostRuntime) {
    assert!(rt; is_fine_without(met(&rt, 64, FEWER_TURNS), "failed"));
}

/// How many short tasks come before two that are to meet.
const SHORT_TASKS: u32 = 2_000;

/// Who has nothing to do is woken at each short task, and told to wait: it must not miss that there is a second task at last.
#[test]
fn workers_meet_after_short_tasks(rt: HostRuntime) -> Result<(), Fail> {
    let declared = events(rt.alloc(), SHORT_TASKS, ", ")?;
    let in_turn = events(rt.alloc(), SHORT_TASKS, " * ")?;
    let workflow = format!(in rt.alloc(); "event {declared}, a, b; goal {in_turn} * (a | b);")?;
    let gate = MeetGate::new(SHORT_TASKS, SHORT_TASKS + 1, TURNS);
    let told = ran(&rt, "flow run --workers 2", &workflow, &gate);
    assert!(rt; is_fine_without(told, "failed"));
    Ok(())
}

#[test]
fn each_task_is_asked_for_once(rt: HostRuntime) {
    let gate = CountingGate::new();
    let told = ran(&rt, "flow run --workers 4", ORDER_DESK, &gate);
    let Ok((status, text)) = told else {
        panic!(&rt; "no memory")
    };
    assert!(rt; status == Status::Fine);
    let text = std::str::from_utf8(&text).unwrap_or("");
    let asked = gate.asked();
    assert!(rt; asked > 0);
    assert_eq!(rt; lines_with(text, "took"), asked);
}

#[test]
fn nothing_is_undone_where_no_task_fails(rt: HostRuntime) {
    let told = ran(&rt, "flow run --workers 4", ORDER_DESK, &NoteGate);
    assert!(rt; is_fine_without(told, "rewound"));
    let told = ran(&rt, "flow run --workers 8", ORDER_DESK, &NoteGate);
    assert!(rt; is_fine_without(told, "rewound"));
    let plain = "event a, b, c; goal a * (b | c);";
    let told = ran(&rt, "flow run --workers 64", plain, &NoteGate);
    assert!(rt; is_fine_without(told, "rewound"));
}

/// The lines of a report without the callers that made the entries.
fn without_callers(alloc: Global, report: &str) -> Result<String, AllocError> {
    let mut text = String::new(alloc);
    for line in report.lines() {
        let step = line.split_once(": ").map_or(line, |(_, step)| step);
        text.push_str(step)?;
        text.push_str("\n")?;
    }
    Ok(text)
}

/// What becomes of a run in which `c` fails at its first attempt, and is done at its second.
const TRIED_AGAIN: &str = "history 10
took 1 0
done 1
took 2 2
failed 2 kept
rewound 0
took 3 1
done 3
took 4 2
done 4
committed
journal 2
1 b
2 c
verdict committed
";

#[test]
fn a_task_is_tried_again(rt: HostRuntime) -> Result<(), Fail> {
    // the first row with the leaf and the attempt counts
    let rows = [(2, 1, Outcome::Failed), (2, 1, Outcome::Done)].to_vec(rt.alloc())?;
    let gate = TableGate::new(rows);
    let workflow = "event a, b, c; goal (a + b) * c;";
    let (status, report) = ran(&rt, "flow run --workers 2", workflow, &gate)?;
    assert!(rt; status == Status::Fine);
    let report = std::str::from_utf8(&report)?;
    let steps = without_callers(rt.alloc(), report)?;
    assert_eq!(rt; steps.as_str(), TRIED_AGAIN);
    Ok(())
}
