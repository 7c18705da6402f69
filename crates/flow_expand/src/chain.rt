ghost use Rattle.std.specs.Prelude.{◌≡◌, ◌∷◌, [], ◌++◌, ◌<◌, ◌≤◌, length, IfOk, OnOk, map, slice_get, slice_index, slice_index_or, Some, All, ℕ};
ghost use Rattle.flow_model.specs.Lists.{◌∈◌};
ghost use Rattle.flow_expand.specs.Directory.{IsDirectory, decls_of};
ghost use Rattle.flow_expand.specs.Steps.{IsRecursion};
ghost use Rattle.flow_expand.specs.Settlement.{ComesBack};

use crate::directory::Directory;
use flow_facts::Name;
use std::alloc::{AllocError, Global};

/// The place of a number in a list.
fn place_of(path: &[usize], number: usize) -> usize
    requires { number ∈ path.now }
    ensures { slice_get path.now result ≡ Some number }
{
    for (place, other) in path.iter().enumerate() {
        if *other == number {
            return place;
        }
    }
    unreachable!()
}

/// The place of the least number.
fn place_of_least(ring: &[usize]) -> usize
    requires { 0 < length ring.now }
    ensures within { result < length ring.now }
    ensures least { (k : ℕ) → k < length ring.now → slice_index ring.now result ≤ slice_index ring.now k }
{
    let least = ring.iter().enumerate().min_by_key(|(_, number)| **number);
    least.map_or(0, |(place, _)| place)
}

/// Writes out the names of those numbers.
fn push_names(
    alloc: Global,
    names: &[Name],
    numbers: &[usize],
    chain: &mut Vec<Name>,
) -> Result<(), AllocError>
    requires { All (λ k. k < length names.now) numbers.now }
    ensures { OnOk result (chain.new.items ≡ chain.old.items ++ map (λ k. slice_index_or names.now k []) numbers.now) }
{
    for number in numbers {
        chain.push(names[*number].copy(alloc)?)?;
    }
    Ok(())
}

/// The ring of sub-workflows from `next` on, written from the one declared first.
pub(crate) fn chain_of(
    alloc: Global,
    directory: &Directory<'_>,
    path: &[usize],
    flow: usize,
    next: usize,
) -> Result<Vec<Name>, AllocError>
    requires directory { IsDirectory directory.now }
    requires back { ComesBack (decls_of directory.now) path.now flow next }
    ensures { IfOk result (λ chain. IsRecursion (decls_of directory.now) chain.items) }
{
    let names = directory.flows.as_slice();
    let ring = &path[place_of(path, next)..];
    let least = place_of_least(ring);
    let mut chain = Vec::new(alloc);
    push_names(alloc, names, &ring[least..], &mut chain)?;
    push_names(alloc, names, &ring[..least + 1], &mut chain)?;
    Ok(chain)
}
