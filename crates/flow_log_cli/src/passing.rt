ghost use Rattle.std.specs.Prelude.{◌≡◌, map, IfOk};
ghost use Rattle.flow_model.specs.Lists.{numbers_from};
ghost use Rattle.flow_workflow.specs.Definition.{schema_of};
ghost use Rattle.flow_plan.specs.Compilation.{IsCompiled};
ghost use Rattle.flow_log_cli.specs.Passing.{AreCounts, AreWays, IsWay, is_on_way, leaves_of_fit, passing};

use flow_event_log::Cases;
use flow_front::Prepared;
use flow_log::{Fit, fit};
use std::alloc::{AllocError, Global};

/// The leaves that a fit shows; none where the events do not fit.
fn leaves_in(alloc: Global, told: Fit) -> Vec<u32>
    ensures { result.items ≡ leaves_of_fit told }
{
    match told {
        Fit::Execution(leaves) => leaves,
        Fit::Front(leaves) => leaves,
        Fit::Deviates { .. } => Vec::new(alloc),
        Fit::Unknown { .. } => Vec::new(alloc),
        Fit::Undecided => Vec::new(alloc),
    }
}

/// The leaves that show how the events keep to the workflow; none where they do not, or where the budget was spent first.
fn way_of(
    alloc: Global,
    prepared: &Prepared,
    events: &[u32],
    budget: u32,
) -> Result<Vec<u32>, AllocError>
    requires { IsCompiled (schema_of prepared.now.workflow) prepared.now.compiled }
    ensures { IfOk result (λ way. IsWay prepared.now.workflow budget events.now way.items) }
{
    let told = fit(
        alloc,
        &prepared.workflow,
        &prepared.compiled,
        events,
        budget,
    )?;
    Ok(leaves_in(alloc, told))
}

/// The leaves of each of the sequences.
fn ways_of(
    alloc: Global,
    prepared: &Prepared,
    sequences: &[Vec<u32>],
    budget: u32,
) -> Result<Vec<Vec<u32>>, AllocError>
    requires { IsCompiled (schema_of prepared.now.workflow) prepared.now.compiled }
    ensures { IfOk result (λ ways. AreWays prepared.now.workflow budget sequences.now ways.items) }
{
    let mut ways = Vec::with_capacity(alloc, sequences.len())?;
    for place in 0..sequences.len() {
        let way = way_of(alloc, prepared, &sequences[place], budget)?;
        ways.push(way)?;
    }
    Ok(ways)
}

/// Whether the leaf is among those of the sequence.
fn is_on_way(ways: &[Vec<u32>], leaf: u32, sequence: u32) -> bool
    ensures { result ≡ is_on_way ways.now leaf sequence }
{
    match ways.get(sequence as usize) {
        Some(way) => way.contains(&leaf),
        None => false,
    }
}

/// How many of the cases have the leaf among those of their sequence.
fn count_of(of_cases: &[u32], ways: &[Vec<u32>], leaf: u32) -> u64
    ensures { result ≡ passing ways.now of_cases.now leaf }
{
    of_cases
        .iter()
        .filter(|sequence| is_on_way(ways, leaf, **sequence))
        .count() as u64
}

/// How many of the cases have each of so many leaves among those of their sequence.
fn counts_of(
    alloc: Global,
    of_cases: &[u32],
    ways: &[Vec<u32>],
    leaves: u32,
) -> Result<Vec<u64>, AllocError>
    ensures { IfOk result (λ counts. counts.items ≡ map (passing ways.now of_cases.now) (numbers_from 0 leaves)) }
{
    let mut counts = Vec::new(alloc);
    for leaf in 0..leaves {
        counts.push(count_of(of_cases, ways, leaf))?;
    }
    Ok(counts)
}

/// How many cases pass each leaf of the workflow, of those that keep to it: by the list of leaves that is found for their events.
pub fn passing_cases(
    alloc: Global,
    prepared: &Prepared,
    cases: &Cases,
    budget: u32,
) -> Result<Vec<u64>, AllocError>
    requires { IsCompiled (schema_of prepared.now.workflow) prepared.now.compiled }
    ensures { IfOk result (λ counts. AreCounts prepared.now.workflow budget cases.now counts.items) }
{
    let leaves = prepared.workflow.tree().leaves();
    let ways = ways_of(alloc, prepared, &cases.sequences, budget)?;
    let counts = counts_of(alloc, &cases.of_cases, &ways, leaves);
    drop(ways);
    counts
}
