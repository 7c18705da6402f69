ghost use Rattle.std.specs.Prelude.{◌≡◌, ℕ, List, IfOk};
ghost use Rattle.flow_model.specs.Ways as model;
ghost use Rattle.flow_rules.specs.Asked.{Finds, HasKept};
ghost use Rattle.flow_rules.specs.EventLeaves.{leaf_in};
ghost use Rattle.flow_rules.specs.Normal.{normal_of};
ghost use Rattle.flow_rules.specs.WayLists.{ways_of_pair, ways_of_parts};

use crate::connective::decides;
use crate::leaf_table::LeafEvents;
use crate::normal::Nnf;
use crate::only::only;
use flow_model::Connective;
use std::alloc::{AllocError, Global};

/// What a rule asks of some leaves.
#[derive(Drop)]
pub(crate) enum Asked {
    /// The first leaf is to stand before the second.
    Pair(u32, u32),
    Parts(Connective, Vec<Asked>),
}

/// What is found when a rule is looked at with some leaves.
#[derive(Drop)]
pub(crate) enum Found {
    /// The leaves meet it in any order (`true`), or in none.
    Decided(bool),
    Open(Asked),
}

/// The pair is asked for, or where there is none it is decided.
fn order(wanted: bool, pair: Option<(u32, u32)>) -> Found
    ensures { Finds result (ways_of_pair wanted pair) }
{
    match pair {
        Some((x, y)) => Found::Open(Asked::Pair(x, y)),
        None => Found::Decided(!wanted),
    }
}

/// What the parts that are kept ask together, of which one alone stands for itself.
fn kept_asked(connective: Connective, mut kept: Vec<Asked>) -> Found
    ensures { (ways : List (List (ℕ × ℕ))) → HasKept connective kept.items ways → Finds result ways }
{
    if kept.is_empty() {
        return Found::Decided(!decides(connective));
    }
    match only(&mut kept) {
        Some(part) => Found::Open(part),
        None => Found::Open(Asked::Parts(connective, kept)),
    }
}

/// What the parts ask together. Those that ask for nothing, or of an `Or` those that can't be met, are
/// left out.
#[cycle(asking)]
fn parts_asked(
    alloc: Global,
    connective: Connective,
    parts: &[Nnf],
    events: &LeafEvents,
) -> Result<Found, AllocError>
    ensures { IfOk result (λ found. Finds found (ways_of_parts connective (leaf_in events.now) parts.now)) }
{
    let mut kept = Vec::new(alloc);
    for part in parts {
        match asked_of(alloc, part, events)? {
            Found::Decided(met) => {
                if met == decides(connective) {
                    drop(kept);
                    return Ok(Found::Decided(met));
                }
            }
            Found::Open(more) => kept.push(more)?,
        }
    }
    Ok(kept_asked(connective, kept))
}

/// What the rule asks of the leaves. Each part is looked at once.
#[cycle(asking)]
pub(crate) fn asked_of(alloc: Global, rule: &Nnf, events: &LeafEvents) -> Result<Found, AllocError>
    ensures { IfOk result (λ found. Finds found (model.ways (normal_of rule.now) (leaf_in events.now))) }
{
    match rule {
        Nnf::Event(wanted, event) => Ok(Found::Decided(events.meets(*wanted, *event))),
        Nnf::Order(wanted, first, second) => {
            Ok(order(*wanted, events.pair(*wanted, *first, *second)))
        }
        Nnf::Parts(connective, parts) => parts_asked(alloc, *connective, parts, events),
    }
}
