ghost use Rattle.std.specs.Prelude.{◌≡◌, ◌≤◌, IfOk, IfSome, length};
ghost use Rattle.flow_model.specs.declared.limits.TheConstants.{MOST_WORKERS};
ghost use Rattle.flow_workflow.specs.Definition.{schema_of};
ghost use Rattle.flow_plan.specs.Compilation.{IsCompiled};
ghost use Rattle.flow_audit.specs.Cuts.{piece, AreCuts};
ghost use Rattle.flow_audit.specs.Findings.{IsJournalFinding, AreFindings};
ghost use Rattle.flow_audit.specs.Shares.{IsShare, AreShares, IsInShare};

use crate::checker::Checker;
use crate::finding::Finding;
use crate::trace_checker::TraceChecker;
use flow_plan::Compiled;
use flow_workflow::Workflow;
use std::alloc::{AllocError, Global};
use std::sync::atomic::{AtomicUsize, Ordering};
use std::thread::{Threads, map_indices};

/// What a worker found of each piece that it took.
type Share = Vec<Option<Finding>>;

/// Checks each piece of the text by so many workers, each in a thread of its own where one can be made.
/// A worker that is done with a piece takes the next one that none has taken.
pub fn audit<R: Threads + Sync, C: Checker>(
    rt: &R,
    alloc: Global,
    checker: &C,
    text: &[u8],
    cuts: &[(usize, usize)],
    workers: u32,
) -> Result<Vec<Finding>, AllocError>
    requires cuts { AreCuts text.now cuts.now }
    requires some { 1 ≤ workers }
    requires few { workers ≤ MOST_WORKERS }
    ensures { IfOk result (λ found. AreFindings (C.finds checker.now) text.now cuts.now found.items) }
{
    // a worker more than there are pieces would have none
    let threads = cuts.len().min(workers as usize);
    let next = AtomicUsize::new(0);
    let shares = map_indices(
        rt,
        alloc,
        threads,
        &|_worker: usize| -> Result<Share, AllocError>
            requires { AreCuts text.now cuts.now }
            ensures { IfOk result (λ share. IsShare (C.finds checker.entry.now) text.entry.now cuts.entry.now share.items) }
        { check_share(alloc, checker, text, cuts, &next) },
    )?;
    in_order(alloc, checker, text, cuts, &shares)
}

/// Checks each piece of the text as a journal of the workflow, by so many workers.
pub fn audit_traces<R: Threads + Sync>(
    rt: &R,
    alloc: Global,
    workflow: &Workflow,
    compiled: &Compiled,
    text: &[u8],
    cuts: &[(usize, usize)],
    workers: u32,
) -> Result<Vec<Finding>, AllocError>
    requires compiled { IsCompiled (schema_of workflow.now) compiled.now }
    requires cuts { AreCuts text.now cuts.now }
    requires some { 1 ≤ workers }
    requires few { workers ≤ MOST_WORKERS }
    ensures { IfOk result (λ found. AreFindings (IsJournalFinding workflow.now) text.now cuts.now found.items) }
{
    let checker = TraceChecker::new(workflow, compiled);
    audit(rt, alloc, &checker, text, cuts, workers)
}

/// Checks pieces until all are taken, each of them the next that no worker has taken.
fn check_share<C: Checker>(
    alloc: Global,
    checker: &C,
    text: &[u8],
    cuts: &[(usize, usize)],
    next: &AtomicUsize,
) -> Result<Share, AllocError>
    requires { AreCuts text.now cuts.now }
    ensures { IfOk result (λ share. IsShare (C.finds checker.now) text.now cuts.now share.items) }
{
    let mut share = Vec::new(alloc);
    share.resize(cuts.len(), None)?;
    for _turn in 0..cuts.len() {
        let place = next.fetch_add(1, Ordering::SeqCst);
        if place >= cuts.len() {
            break;
        }
        let finding = check_piece(alloc, checker, text, cuts[place])?;
        share[place] = Some(finding);
    }
    Ok(share)
}

/// Checks one piece of the text.
fn check_piece<C: Checker>(
    alloc: Global,
    checker: &C,
    text: &[u8],
    cut: (usize, usize),
) -> Result<Finding, AllocError>
    requires { (cut.0 ≤ cut.1) × (cut.1 ≤ length text.now) }
    ensures { IfOk result (λ finding. C.finds checker.now (piece text.now cut) finding) }
{
    checker.check(alloc, &text[cut.0..cut.1])
}

/// The findings of all workers in the order of the pieces. No proof says that each piece was taken, so one that none took
/// is checked here.
fn in_order<C: Checker>(
    alloc: Global,
    checker: &C,
    text: &[u8],
    cuts: &[(usize, usize)],
    shares: &[Result<Share, AllocError>],
) -> Result<Vec<Finding>, AllocError>
    requires cuts { AreCuts text.now cuts.now }
    requires shares { AreShares (C.finds checker.now) text.now cuts.now shares.now }
    ensures { IfOk result (λ all. AreFindings (C.finds checker.now) text.now cuts.now all.items) }
{
    let mut all = Vec::with_capacity(alloc, cuts.len())?;
    for place in 0..cuts.len() {
        let finding = match found_at(shares, place)? {
            Some(finding) => finding,
            None => check_piece(alloc, checker, text, cuts[place])?,
        };
        all.push(finding)?;
    }
    Ok(all)
}

/// What some worker found of the piece of that number, where all that are asked had memory.
fn found_at(
    shares: &[Result<Share, AllocError>],
    place: usize,
) -> Result<Option<Finding>, AllocError>
    ensures { IfOk result (λ found. IfSome found (IsInShare shares.now place)) }
{
    for share in shares {
        match share {
            Ok(share) => {
                if let Some(Some(finding)) = share.get(place) {
                    return Ok(Some(*finding));
                }
            }
            Err(_) => return Err(AllocError),
        }
    }
    Ok(None)
}
