ghost use Rattle.std.specs.Prelude.{◌≡◌, ◌+◌, ◌<◌, [], IfOk};
ghost use Rattle.flow_form.specs.Script.{said};
ghost use Rattle.flow_form.specs.Names.{IsClosed};

use flow_core::{Ask, Call, Core, FailEffect, Told, play};
use flow_crew::{Begin, Book, End, Move, Post};
use flow_excise::compile;
use flow_expand::{Workflow, expand};
use flow_gate::{NoteGate, Outcome};
use flow_model::{Entry, Note, Step};
use flow_text::{Script, parse};
use flow_turn::{Pass, TurnLock};
use std::alloc::Global;
use std::sync::Wait;
use std::test::Fail;
use test_doubles::CountingGate;

fn script_of(alloc: Global, text: &[u8]) -> Result<Script, Fail>
    ensures { IfOk result (λ script. IsClosed (said script)) }
{
    if text.len() >= 1 << 31 {
        return Err(Fail::from("a long text"));
    }
    match parse(alloc, text) {
        Ok(script) => Ok(script),
        Err(_) => Err(Fail::from("no script")),
    }
}

/// The workflow that the text becomes.
fn workflow_of(alloc: Global, text: &[u8]) -> Result<Workflow, Fail> {
    let script = script_of(alloc, text)?;
    match expand(alloc, &script) {
        Ok(workflow) => Ok(workflow),
        Err(_) => Err(Fail::from("no workflow")),
    }
}

/// A run of the workflow that the text becomes.
fn start(alloc: Global, text: &[u8]) -> Result<Core, Fail>
    ensures { IfOk result (λ core. core.history ≡ []) }
{
    let workflow = workflow_of(alloc, text)?;
    let Ok(compiled) = compile(alloc, workflow.tree(), workflow.rules()) else {
        return Err(Fail::from("no plans"));
    };
    Ok(Core::start(alloc, workflow, compiled, 64)?)
}

/// Whether it is the call of that claim on that leaf, whose event has the leaf's number, at its first attempt.
fn is_call(told: Told, claim: u32, leaf: u32) -> bool {
    let wanted = Call {
        claim,
        leaf,
        event: leaf,
        attempt: 1,
        note: Note::Done,
    };
    match told {
        Told::Call(call) => call == wanted,
        _ => false,
    }
}

/// Whether it is what the run tells of the ask of that number.
fn is_told(number: usize, told: Told) -> bool {
    match number {
        0 => is_call(told, 1, 1),
        1 => matches!(told, Told::Failed(FailEffect::Switched)),
        2 => matches!(told, Told::Refused(9)),
        3 => is_call(told, 2, 0),
        4 => matches!(told, Told::Posted),
        5 => matches!(told, Told::Did),
        _ => matches!(told, Told::Committed),
    }
}

/// One ask after another, and whether the run tells of each what it should.
fn are_told(core: &mut Core) -> bool {
    let asks = [
        Ask::Take(1),
        Ask::Fail(1),
        Ask::Rewind,
        Ask::Take(0),
        Ask::Done(2),
        Ask::Do(2),
        Ask::Commit,
    ];
    let all = play(core, &asks, 3);
    for (number, told) in all.iter().enumerate() {
        if !is_told(number, *told) {
            return false;
        }
    }
    true
}

/// Whether a run that is asked so ends as it should.
fn is_asked(alloc: Global) -> Result<bool, Fail> {
    let mut core = start(alloc, b"event a, b; goal (a + b) | ins p(x);")?;
    let told = are_told(&mut core) && core.holds(0) && core.committed();
    Ok(told && core.made(3) == 6 && core.made(0) == 0)
}

#[test]
fn each_thing_is_asked_of_a_run(rt: HostRuntime) -> Result<(), Fail> {
    let told = is_asked(rt.alloc())?;
    assert!(rt; told);
    Ok(())
}

/// How many entries are of a claim that is given.
fn claims_in(history: &[Entry]) -> u32 {
    let mut count = 0u32;
    for entry in history {
        if let Step::Took { .. } = entry.step {
            count = count.wrapping_add(1);
        }
    }
    count
}

/// Whether a run that one caller finishes asks its gate as often as there are claims.
fn is_asked_once(alloc: Global) -> Result<bool, Fail> {
    let text = b"event a, b, c fail 1, d fail, e; goal (a + b) * c * (d + e);";
    let core = start(alloc, text)?;
    let gate = CountingGate::new();
    let mut book = Book::new(core, &gate);
    let ended = matches!(book.finish(0), End::Committed);
    let core = book.into_core();
    Ok(ended && gate.asked() > 0 && claims_in(core.history()) == gate.asked())
}

#[test]
fn who_finishes_asks_once_a_claim(rt: HostRuntime) -> Result<(), Fail> {
    let told = is_asked_once(rt.alloc())?;
    assert!(rt; told);
    Ok(())
}

/// The leaf of the task that a caller is to perform.
fn leaf_of(found: Move) -> Option<u32> {
    match found {
        Move::Perform(call) => Some(call.leaf),
        _ => None,
    }
}

/// Two callers, each with a pass of its own, begin a task each: the leaves of these.
fn begin_two<R: Wait>(
    rt: &R,
    lock: &TurnLock<Book<NoteGate>>,
    root: &mut Pass<Book<NoteGate>>,
) -> (Option<u32>, Option<u32>)
    requires { (root.old.lock ≡ lock.now) × (root.old.number ≡ 0) × (root.old.given + 2 < 4294967295) }
    ensures { (root.new.lock ≡ lock.now) × (root.new.number ≡ 0) × (root.new.outs ≡ root.old.outs) }
{
    let mut first = lock.split(root);
    let mut second = lock.split(root);
    let one = lock.with_turn(rt, &mut first, Begin);
    let two = lock.with_turn(rt, &mut second, Begin);
    lock.join(root, first);
    lock.join(root, second);
    (leaf_of(one), leaf_of(two))
}

/// A lock around a run that has not begun, and its first pass.
fn lock_of(
    alloc: Global,
    core: Core,
) -> Result<(TurnLock<Book<NoteGate>>, Pass<Book<NoteGate>>), Fail>
    requires { core.history ≡ [] }
    ensures { IfOk result (λ made. (made.1.lock ≡ made.0) × (made.1.number ≡ 0) × (made.1.given ≡ 0) × (made.1.outs ≡ 0)) }
{
    match TurnLock::new(alloc, Book::new(core, NoteGate)) {
        Ok(made) => Ok(made),
        Err(_) => Err(Fail::from("no lock")),
    }
}

/// What two callers begin, and whether each of them, and nobody else, made an entry.
fn begun<R: Wait>(alloc: Global, rt: &R) -> Result<bool, Fail> {
    let core = start(alloc, b"event a, b; goal a | b;")?;
    let (lock, mut root) = lock_of(alloc, core)?;
    let leaves = begin_two(rt, &lock, &mut root);
    let core = lock.close(root).into_core();
    let made = (core.made(1), core.made(2), core.made(0)) == (1, 1, 0);
    Ok(made && leaves == (Some(0), Some(1)))
}

#[test]
fn two_passes_at_one_book(rt: HostRuntime) -> Result<(), Fail> {
    let told = begun(rt.alloc(), &rt)?;
    assert!(rt; told);
    Ok(())
}
