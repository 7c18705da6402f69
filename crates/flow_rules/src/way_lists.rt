ghost use Rattle.std.specs.Prelude.{◌≡◌, ◌++◌, IfOk, OnOk, map};
ghost use Rattle.flow_model.specs.Ways as model;
ghost use Rattle.flow_model.specs.declared.operators.Connective.TheVariants.{And, Or};
ghost use Rattle.flow_rules.specs.Asked.{ways_asked, ways_asked_by};
ghost use Rattle.flow_rules.specs.EventLeaves.{leaf_in};
ghost use Rattle.flow_rules.specs.Normal.{normal_of};
ghost use Rattle.flow_rules.specs.WayLists.{both_ways, decided, ways_of_sets};

use crate::asked::{Asked, Found, asked_of};
use crate::leaf_table::LeafEvents;
use crate::normal::Nnf;
use crate::order_set::OrderSet;
use flow_model::Connective;
use std::alloc::{AllocError, Global};

/// The one way that asks for nothing.
pub(crate) fn free_way(alloc: Global) -> Result<Vec<OrderSet>, AllocError>
    ensures { IfOk result (λ all. ways_of_sets all.items ≡ model.free_way) }
{
    let mut all = Vec::new(alloc);
    all.push(OrderSet::new(Vec::new(alloc)))?;
    Ok(all)
}

/// The one way that asks for nothing, or none.
fn decided(alloc: Global, met: bool) -> Result<Vec<OrderSet>, AllocError>
    ensures { IfOk result (λ all. ways_of_sets all.items ≡ decided met) }
{
    if met {
        free_way(alloc)
    } else {
        Ok(Vec::new(alloc))
    }
}

/// Puts the others behind the ways.
fn add(others: Vec<OrderSet>, all: &mut Vec<OrderSet>) -> Result<(), AllocError>
    ensures { OnOk result (all.new.items ≡ all.old.items ++ others.items) }
{
    for other in others {
        all.push(other)?;
    }
    Ok(())
}

/// Each of the ways, with each way in which the rule is met behind it.
#[cycle(listing)]
fn extended(alloc: Global, ways: Vec<OrderSet>, rule: &Asked) -> Result<Vec<OrderSet>, AllocError>
    ensures { IfOk result (λ all. ways_of_sets all.items ≡ both_ways (ways_of_sets ways.items) (ways_asked rule.now)) }
{
    let mut all = Vec::with_capacity(alloc, ways.len())?;
    for way in ways {
        extend(alloc, way, rule, &mut all)?;
    }
    Ok(all)
}

/// Adds the way with each way in which all parts are met behind it.
#[cycle(listing)]
fn extend_by_all(
    alloc: Global,
    way: OrderSet,
    parts: &[Asked],
    all: &mut Vec<OrderSet>,
) -> Result<(), AllocError>
    ensures { OnOk result (ways_of_sets all.new.items ≡ ways_of_sets all.old.items ++ map (λ w. way.pairs.items ++ w) (ways_asked_by And parts.now)) }
{
    let mut ways = Vec::new(alloc);
    ways.push(way)?;
    for part in parts {
        ways = extended(alloc, ways, part)?;
    }
    add(ways, all)
}

/// Adds the way with each way in which some part is met behind it.
#[cycle(listing)]
fn extend_by_any(
    alloc: Global,
    way: &OrderSet,
    parts: &[Asked],
    all: &mut Vec<OrderSet>,
) -> Result<(), AllocError>
    ensures { OnOk result (ways_of_sets all.new.items ≡ ways_of_sets all.old.items ++ map (λ w. way.now.pairs.items ++ w) (ways_asked_by Or parts.now)) }
{
    for part in parts {
        extend(alloc, way.copy(alloc)?, part, all)?;
    }
    Ok(())
}

/// Adds the way with each way in which the rule is met behind it.
#[cycle(listing)]
fn extend(
    alloc: Global,
    way: OrderSet,
    rule: &Asked,
    all: &mut Vec<OrderSet>,
) -> Result<(), AllocError>
    ensures { OnOk result (ways_of_sets all.new.items ≡ ways_of_sets all.old.items ++ map (λ w. way.pairs.items ++ w) (ways_asked rule.now)) }
{
    match rule {
        Asked::Pair(first, second) => {
            all.push(way.with(*first, *second)?)?;
            Ok(())
        }
        Asked::Parts(connective, parts) => match connective {
            Connective::And => extend_by_all(alloc, way, parts, all),
            Connective::Or => extend_by_any(alloc, &way, parts, all),
        },
    }
}

/// The ways in which the rule is met. No list that is formed has more ways than the answer.
fn listed(alloc: Global, rule: &Asked) -> Result<Vec<OrderSet>, AllocError>
    ensures { IfOk result (λ all. ways_of_sets all.items ≡ ways_asked rule.now) }
{
    let mut all = Vec::new(alloc);
    extend(alloc, OrderSet::new(Vec::new(alloc)), rule, &mut all)?;
    Ok(all)
}

/// The ways in which the leaves meet the rule, in order. What can't be met is found before any list is
/// formed.
pub fn ways(alloc: Global, rule: &Nnf, events: &LeafEvents) -> Result<Vec<OrderSet>, AllocError>
    ensures { IfOk result (λ all. ways_of_sets all.items ≡ model.ways (normal_of rule.now) (leaf_in events.now)) }
{
    match asked_of(alloc, rule, events)? {
        Found::Decided(met) => decided(alloc, met),
        Found::Open(asked) => listed(alloc, &asked),
    }
}

/// Each of the ways, with each way in which the leaves meet the rule behind it.
pub(crate) fn with_rule(
    alloc: Global,
    ways: Vec<OrderSet>,
    rule: &Nnf,
    events: &LeafEvents,
) -> Result<Vec<OrderSet>, AllocError>
    ensures { IfOk result (λ all. ways_of_sets all.items ≡
        both_ways (ways_of_sets ways.items) (model.ways (normal_of rule.now) (leaf_in events.now))) }
{
    match asked_of(alloc, rule, events)? {
        Found::Decided(true) => Ok(ways),
        Found::Decided(false) => {
            drop(ways);
            Ok(Vec::new(alloc))
        }
        Found::Open(asked) => extended(alloc, ways, &asked),
    }
}
