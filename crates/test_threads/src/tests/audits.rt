//! Checks that are at work at once, by as many workers as are asked for.
use crate::tests::workers::{events, ran};
use flow_audit::{Finding, audit};
use flow_cli::Status;
use flow_gate::NoteGate;
use flow_trace::Checked;
use std::alloc::{AllocError, Global};
use std::fs;
use std::rt::Files;
use std::sync::Wait;
use std::sync::atomic::{AtomicBool, Ordering};
use std::test::Fail;
use std::thread::{Threads, join};
use test_doubles::{CountingChecker, MeetChecker};

/// How often a check looks for the other.
const TURNS: u64 = 1_000_000_000;

/// How often a check lets others go first whose time is to be long.
const LONG: u32 = 2_000;

/// The places of eight pieces of a byte each.
const EIGHT: [(usize, usize); 8] = [
    (0, 1),
    (1, 2),
    (2, 3),
    (3, 4),
    (4, 5),
    (5, 6),
    (6, 7),
    (7, 8),
];

/// Whether each journal is an execution, and there are so many.
fn are_executions(found: &[Finding], count: usize) -> bool {
    let is_right = |finding: &Finding| matches!(finding, Finding::Checked(Checked::Execution));
    found.len() == count && found.iter().all(is_right)
}

#[test]
fn two_checks_meet(rt: HostRuntime) -> Result<(), Fail> {
    let checker = MeetChecker::new(TURNS);
    let found = audit(&rt, rt.alloc(), &checker, b"01", &[(0, 1), (1, 2)], 2)?;
    assert!(rt; are_executions(&found, 2));
    Ok(())
}

/// Where each of two workers takes one piece only, nobody is left for the last two.
#[test]
fn checks_meet_after_others(rt: HostRuntime) -> Result<(), Fail> {
    let checker = MeetChecker::new(TURNS);
    let found = audit(&rt, rt.alloc(), &checker, b"abcdef01", &EIGHT, 2)?;
    assert!(rt; are_executions(&found, 8));
    Ok(())
}

#[test]
fn each_piece_is_checked_once(rt: HostRuntime) -> Result<(), Fail> {
    let checker = CountingChecker::new(LONG);
    let found = audit(&rt, rt.alloc(), &checker, b"abcdefgh", &EIGHT, 3)?;
    assert!(rt; are_executions(&found, 8));
    assert_eq!(rt; checker.asked(), 8);
    assert!(rt; checker.most_at_work() <= 3);
    Ok(())
}

/// How many journals are audited to see the threads.
const JOURNALS: u32 = 64;

/// So many journals of a workflow with 4,096 options: each takes a while.
fn slow_journals(alloc: Global) -> Result<String, AllocError> {
    let mut text = String::from_str(alloc, "event ")?;
    text.push_str(&events(alloc, 24, ", ")?)?;
    text.push_str("; goal nop")?;
    let mut journal = String::new(alloc);
    for choice in 0..12u32 {
        let first = choice * 2;
        let second = first + 1;
        text.push_str(&format!(in alloc; " * (e{first} + e{second})")?)?;
        journal.push_str(&format!(in alloc; "{second} e{second}\n")?)?;
    }
    text.push_str(";")?;
    for event in 0..24u32 {
        text.push_str(&format!(in alloc; " constraint needs e{event} e{event};")?)?;
    }
    text.push_str("\n")?;
    for _ in 0..JOURNALS {
        text.push_str("%%\n")?;
        text.push_str(&journal)?;
    }
    Ok(text)
}

/// How many threads the process has, as the system tells.
fn threads_now<R: Files + AllocGlobal>(rt: &R) -> u32 {
    let Ok(told) = fs::read_to_string(rt, "/proc/self/status") else {
        return 0;
    };
    match told.split_once("Threads:") {
        Some((_, behind)) => {
            let count = behind.split_whitespace().next().unwrap_or("");
            count.parse::<u32>().unwrap_or(0)
        }
        None => 0,
    }
}

/// The most threads that the process has until the end comes.
fn most_threads<R: Files + AllocGlobal + Wait>(rt: &R, is_over: &AtomicBool) -> u32 {
    let mut most = 0;
    for _ in rt.forever() {
        if is_over.load(Ordering::SeqCst) {
            break;
        }
        most = most.max(threads_now(rt));
    }
    most
}

/// The status of an audit of the text by four workers, and how many threads more than before the process has at once then, at most.
fn threads_begun<R: Files + AllocGlobal + Threads + Wait + Sync>(
    rt: &R,
    text: &str,
) -> Result<(Status, u32), AllocError> {
    let is_over = AtomicBool::new(false);
    let before = threads_now(rt);
    let (told, most) = join(
        rt,
        || {
            let told = ran(rt, "flow audit --workers 4", text, &NoteGate);
            is_over.store(true, Ordering::SeqCst);
            told
        },
        || most_threads(rt, &is_over),
    );
    let (status, _) = told?;
    Ok((status, most.saturating_sub(before)))
}

/// How often the threads are looked for: where the machine has much else to do, one look may miss them.
const LOOKS: u32 = 40;

/// The journals of `audit_traces` are checked by as many threads as are asked for: beside them is the one that looks.
#[test]
fn an_audit_has_its_threads(rt: HostRuntime) -> Result<(), Fail> {
    let text = slow_journals(rt.alloc())?;
    let mut most = 0;
    for _ in 0..LOOKS {
        let (status, begun) = threads_begun(&rt, &text)?;
        assert!(rt; status == Status::Fine);
        most = most.max(begun);
        if most >= 4 {
            break;
        }
    }
    assert!(rt; most == 4 || most == 5, "{most} threads");
    Ok(())
}
