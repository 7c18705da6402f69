ghost use Rattle.std.specs.Prelude.{IfOk, IfSome};
ghost use Rattle.flow_conformance.specs.Shares.{IsShare, AreShares, IsInShare};
ghost use Rattle.flow_conformance.specs.Judged.{AreFindings};

use crate::cause::{Finding, find_cause};
use crate::judge::Judge;
use std::alloc::{AllocError, Global};
use std::sync::atomic::{AtomicUsize, Ordering};
use std::thread::{Threads, map_indices};

/// What a worker found of each sequence that it took.
type Share = Vec<Option<Finding>>;

/// Judges sequences until all are taken, each of them the next that no worker has taken.
fn judge_share<J: Judge>(
    alloc: Global,
    judge: &J,
    sequences: &[Vec<u32>],
    declared: u32,
    next: &AtomicUsize,
) -> Result<Share, AllocError>
    ensures { IfOk result (λ share. IsShare (J.judges judge.now) sequences.now share.items) }
{
    let mut share = Vec::new(alloc);
    share.resize(sequences.len(), None)?;
    for _turn in 0..sequences.len() {
        let place = next.fetch_add(1, Ordering::SeqCst);
        if place >= sequences.len() {
            break;
        }
        let finding = find_cause(alloc, judge, &sequences[place], declared)?;
        share[place] = Some(finding);
    }
    Ok(share)
}

/// What some worker found of the sequence of that number, where all that are asked had memory.
fn found_at(
    shares: &[Result<Share, AllocError>],
    place: usize,
) -> Result<Option<Finding>, AllocError>
    ensures { IfOk result (λ found. IfSome found (IsInShare shares.now place)) }
{
    for share in shares {
        match share {
            Ok(share) => {
                if let Some(Some(finding)) = share.get(place) {
                    return Ok(Some(*finding));
                }
            }
            Err(_) => return Err(AllocError),
        }
    }
    Ok(None)
}

/// The findings of all workers in the order of the sequences. No proof says that each was taken, so one that none took is judged here.
fn in_order<J: Judge>(
    alloc: Global,
    judge: &J,
    sequences: &[Vec<u32>],
    declared: u32,
    shares: &[Result<Share, AllocError>],
) -> Result<Vec<Finding>, AllocError>
    requires { AreShares (J.judges judge.now) sequences.now shares.now }
    ensures { IfOk result (λ all. AreFindings (J.judges judge.now) sequences.now all.items) }
{
    let mut all = Vec::with_capacity(alloc, sequences.len())?;
    for place in 0..sequences.len() {
        let finding = match found_at(shares, place)? {
            Some(finding) => finding,
            None => find_cause(alloc, judge, &sequences[place], declared)?,
        };
        all.push(finding)?;
    }
    Ok(all)
}

/// Judges each sequence, by so many workers, each in a thread of its own where one can be made. Where there is none, they are judged
/// one after another.
/// A worker that is done with a sequence takes the next one that none has taken.
pub fn judge_all<R: Threads + Sync, J: Judge>(
    rt: &R,
    alloc: Global,
    judge: &J,
    sequences: &[Vec<u32>],
    declared: u32,
    workers: u32,
) -> Result<Vec<Finding>, AllocError>
    ensures { IfOk result (λ found. AreFindings (J.judges judge.now) sequences.now found.items) }
{
    let threads = sequences.len().min(workers as usize);
    let next = AtomicUsize::new(0);
    let shares = map_indices(
        rt,
        alloc,
        threads,
        &|_worker: usize| -> Result<Share, AllocError>
            ensures { IfOk result (λ share. IsShare (J.judges judge.entry.now) sequences.entry.now share.items) }
        { judge_share(alloc, judge, sequences, declared, &next) },
    )?;
    in_order(alloc, judge, sequences, declared, &shares)
}
