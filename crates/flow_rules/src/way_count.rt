ghost use Rattle.std.specs.Prelude.{◌≡◌, ℕ, Bool, Option, is_some};
ghost use Rattle.flow_model.specs.Ways as model;
ghost use Rattle.flow_model.specs.declared.operators.Connective.TheVariants.{And, Or};
ghost use Rattle.flow_rules.specs.WayCount.{count_of, counts_beside, counts_of_both, is_free_count};
ghost use Rattle.flow_rules.specs.Normal.{normal_of};
ghost use Rattle.flow_rules.specs.WayCount.{Tells};
ghost use Rattle.flow_rules.specs.WayLists.{decided, pair_in, ways_of_pair, ways_of_parts};

use crate::normal::Nnf;
use crate::presence::Presence;
use flow_model::Connective;

/// How many ways there are, and how many pairs in all of them. What would pass the greatest number
/// is kept at it.
#[derive(Clone, Copy)]
pub struct WayCount {
    pub ways: u64,
    pub pairs: u64,
}

/// No way.
pub(crate) const NONE: WayCount = WayCount { ways: 0, pairs: 0 };

/// The one way that asks for nothing.
pub(crate) const FREE: WayCount = WayCount { ways: 1, pairs: 0 };

/// One way, which asks for one pair.
const PAIR: WayCount = WayCount { ways: 1, pairs: 1 };

impl WayCount {
    /// Whether the one way that asks for nothing is all.
    pub(crate) fn is_free(self) -> bool
        ensures { result ≡ is_free_count self }
    {
        self.ways == 1 && self.pairs == 0
    }

    /// Each way with each of the others.
    pub(crate) fn both(self, other: WayCount) -> WayCount
        ensures { result ≡ counts_of_both self other }
    {
        let front = self.pairs.saturating_mul(other.ways);
        let back = self.ways.saturating_mul(other.pairs);
        WayCount {
            ways: self.ways.saturating_mul(other.ways),
            pairs: front.saturating_add(back),
        }
    }

    /// The ways and the others, where neither has the one that asks for nothing.
    fn beside(self, other: WayCount) -> WayCount
        ensures { result ≡ counts_beside self other }
    {
        WayCount {
            ways: self.ways.saturating_add(other.ways),
            pairs: self.pairs.saturating_add(other.pairs),
        }
    }

    /// The one way that asks for nothing, or none.
    fn decided(met: bool) -> WayCount
        ensures { result ≡ count_of (decided met) }
    {
        if met { FREE } else { NONE }
    }
}

/// Whether two events have a leaf each.
fn both_present<E: Presence>(events: &E, first: u32, second: u32) -> bool
    ensures { (leaf : ℕ → Option ℕ) (wanted : Bool) → Tells (E.present events.now) leaf →
        result ≡ is_some (pair_in leaf wanted first second) }
{
    first != second && events.has(first) && events.has(second)
}

/// One way with the pair of two events, or where there is no pair what is decided of it.
fn order<E: Presence>(events: &E, wanted: bool, first: u32, second: u32) -> WayCount
    ensures { (leaf : ℕ → Option ℕ) → Tells (E.present events.now) leaf →
        result ≡ count_of (ways_of_pair wanted (pair_in leaf wanted first second)) }
{
    if both_present(events, first, second) {
        PAIR
    } else {
        WayCount::decided(!wanted)
    }
}

/// How many ways there are to meet all parts. It ends where one of them can't be met.
#[cycle(counting)]
fn count_all<E: Presence>(parts: &[Nnf], events: &E) -> WayCount
    ensures { (leaf : ℕ → Option ℕ) → Tells (E.present events.now) leaf → result ≡ count_of (ways_of_parts And leaf parts.now) }
{
    let mut count = FREE;
    for part in parts {
        let more = count_ways(part, events);
        if more.ways == 0 {
            return NONE;
        }
        count = count.both(more);
    }
    count
}

/// How many ways there are to meet some part. It ends where one of them is met in any order.
#[cycle(counting)]
fn count_any<E: Presence>(parts: &[Nnf], events: &E) -> WayCount
    ensures { (leaf : ℕ → Option ℕ) → Tells (E.present events.now) leaf → result ≡ count_of (ways_of_parts Or leaf parts.now) }
{
    let mut count = NONE;
    for part in parts {
        let more = count_ways(part, events);
        if more.is_free() {
            return FREE;
        }
        count = count.beside(more);
    }
    count
}

/// How many ways there are in which the leaves meet the rule: it is enough to know which events have one. It takes no memory.
#[cycle(counting)]
#[inline(always)]
pub fn count_ways<E: Presence>(rule: &Nnf, events: &E) -> WayCount
    ensures { (leaf : ℕ → Option ℕ) → Tells (E.present events.now) leaf → result ≡ count_of (model.ways (normal_of rule.now) leaf) }
{
    match rule {
        Nnf::Event(wanted, event) => WayCount::decided(events.has(*event) == *wanted),
        Nnf::Order(wanted, first, second) => order(events, *wanted, *first, *second),
        Nnf::Parts(connective, parts) => match connective {
            Connective::And => count_all(parts, events),
            Connective::Or => count_any(parts, events),
        },
    }
}
