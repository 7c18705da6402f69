ghost use Rattle.std.specs.Prelude.{◌≡◌, ◌<◌, ℕ, Option, IfOk};
ghost use Rattle.flow_model.specs.declared.operators.Connective.TheVariants.{And};
ghost use Rattle.flow_rules.specs.WayCount.{Tells, count_of};
ghost use Rattle.flow_rules.specs.EventLeaves.{leaf_in};
ghost use Rattle.flow_rules.specs.Lanes.{Shows, is_marked};
ghost use Rattle.flow_rules.specs.Narrowed.{AreFree, IsUnmet, LeftOf, open_ways, ways_in};
ghost use Rattle.flow_rules.specs.Standing.{has_lane};
ghost use Rattle.flow_rules.specs.WayLists.{ways_of_sets, ways_of_parts};

use crate::lanes::Lanes;
use crate::leaf_table::LeafEvents;
use crate::narrow::narrow_rule;
use crate::normal::Nnf;
use crate::order_set::OrderSet;
use crate::presence::Lane;
use crate::standing::{Standing, standing_of};
use crate::way_count::{FREE, NONE, WayCount, count_ways};
use crate::way_lists::{free_way, with_rule};
use flow_model::Connective;
use std::alloc::{AllocError, Global};

/// What is left of a rule in the lanes in which it asks for an order.
#[derive(Drop)]
struct LaneRule {
    lanes: u64,
    rule: Nnf,
}

/// What rules that are all to be met ask in each of 64 lanes: where one of them is unmet, and what is
/// left of the others.
#[derive(Drop)]
pub struct Narrowed {
    unmet: u64,
    rules: Vec<LaneRule>,
}

/// In which lanes each of some rules is met in any order, and in which one of them is unmet.
#[derive(Drop)]
struct Standings {
    free: Vec<u64>,
    unmet: u64,
}

fn has_lane(word: u64, lane: u32) -> bool
    requires { lane < 64 }
    ensures { result ≡ has_lane word lane }
{
    word >> lane & 1 == 1
}

/// Where each of the rules is met in any order, and where one of them is unmet.
fn stand_each(alloc: Global, rules: &[Nnf], lanes: &Lanes) -> Result<Standings, AllocError>
    ensures free { IfOk result (λ found. AreFree found.free.items lanes.now rules.now) }
    ensures unmet { IfOk result (λ found. IsUnmet found.unmet lanes.now rules.now) }
{
    let mut free = Vec::new(alloc);
    let mut all = Standing::everywhere(true);
    for rule in rules {
        let standing = standing_of(rule, lanes);
        all = all.with(standing, Connective::And);
        free.push(standing.free)?;
    }
    Ok(Standings {
        free,
        unmet: all.unmet,
    })
}

/// What is left of the rules. One that is met in any order in each lane in which all can be met is left out.
fn left_of(
    alloc: Global,
    rules: &[Nnf],
    lanes: &Lanes,
    free: &[u64],
    unmet: u64,
) -> Result<Vec<LaneRule>, AllocError>
    requires { AreFree free.now lanes.now rules.now }
    ensures { IfOk result (λ left. LeftOf unmet lanes.now left.items rules.now) }
{
    let mut left = Vec::new(alloc);
    for place in 0..rules.len() {
        let rule = &rules[place];
        let open = !(free[place] | unmet);
        if open != 0 {
            let narrow = narrow_rule(alloc, rule, lanes, open)?;
            left.push(LaneRule {
                lanes: open,
                rule: narrow.rule,
            })?;
        }
    }
    Ok(left)
}

/// What the rules ask. Each is walked once to see where it stands, and once more where it is open.
pub(crate) fn narrow_each(
    alloc: Global,
    rules: &[Nnf],
    lanes: &Lanes,
) -> Result<Narrowed, AllocError>
    ensures { IfOk result (λ narrowed. (lane : ℕ) (leaf : ℕ → Option ℕ) → lane < 64 → Shows lanes.now lane leaf →
        ways_in narrowed lane leaf ≡ ways_of_parts And leaf rules.now) }
{
    let standings = stand_each(alloc, rules, lanes)?;
    let left = left_of(alloc, rules, lanes, &standings.free, standings.unmet)?;
    Ok(Narrowed {
        unmet: standings.unmet,
        rules: left,
    })
}

fn count_open(rules: &[LaneRule], one: &Lane) -> WayCount
    ensures { (leaf : ℕ → Option ℕ) → Tells (is_marked one.now.words.now one.now.lane) leaf → result ≡ count_of (open_ways one.now.lane leaf rules.now) }
{
    let mut count = FREE;
    for rule in rules {
        if has_lane(rule.lanes, one.lane) {
            count = count.both(count_ways(&rule.rule, one));
        }
    }
    count
}

fn list_open(
    alloc: Global,
    rules: &[LaneRule],
    lane: u32,
    events: &LeafEvents,
) -> Result<Vec<OrderSet>, AllocError>
    requires { lane < 64 }
    ensures { IfOk result (λ all. ways_of_sets all.items ≡ open_ways lane (leaf_in events.now) rules.now) }
{
    let mut ways = free_way(alloc)?;
    for rule in rules {
        if has_lane(rule.lanes, lane) {
            ways = with_rule(alloc, ways, &rule.rule, events)?;
        }
    }
    Ok(ways)
}

impl Narrowed {
    /// How many ways there are in a lane, by which events have a leaf there. It takes no memory.
    pub fn count(&self, lane: u32, lanes: &Lanes) -> WayCount
        requires { lane < 64 }
        ensures { (leaf : ℕ → Option ℕ) → Shows lanes.now lane leaf → result ≡ count_of (ways_in self.now lane leaf) }
    {
        if has_lane(self.unmet, lane) {
            return NONE;
        }
        let words = lanes.words();
        count_open(&self.rules, &Lane { words, lane })
    }

    /// The ways in a lane, in order, by the leaves of its events.
    pub fn ways(
        &self,
        alloc: Global,
        lane: u32,
        events: &LeafEvents,
    ) -> Result<Vec<OrderSet>, AllocError>
        requires { lane < 64 }
        ensures { IfOk result (λ all. ways_of_sets all.items ≡ ways_in self.now lane (leaf_in events.now)) }
    {
        if has_lane(self.unmet, lane) {
            return Ok(Vec::new(alloc));
        }
        list_open(alloc, &self.rules, lane, events)
    }
}
