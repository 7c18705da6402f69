ghost use Rattle.std.specs.Prelude.{◌≡◌, ◌<◌, ℕ, Bool, not, Option, bit_and, bit_or, is_some};
ghost use Rattle.flow_model.specs.Ways as model;
ghost use Rattle.flow_rules.specs.Lanes.{Shows};
ghost use Rattle.flow_rules.specs.Normal.{event_form, normal_of, pair_form};
ghost use Rattle.flow_rules.specs.Standing.{Stands, StandsIn, has_lane, lanes_where};
ghost use Rattle.flow_rules.specs.WayLists.{decided, decider, pair_in, ways_of_parts};

use crate::connective::decides;
use crate::lanes::Lanes;
use crate::normal::Nnf;
use flow_model::Connective;

/// In which lanes a rule is met in any order, and in which in none. In the others it asks for an order.
#[derive(Clone, Copy)]
pub(crate) struct Standing {
    pub(crate) free: u64,
    pub(crate) unmet: u64,
}

impl Standing {
    /// By the lanes in which it is met in any order and those in which it is in none, or of its negation
    /// where that is wanted.
    fn of(wanted: bool, free: u64, unmet: u64) -> Standing
        ensures free { lanes_where result wanted ≡ free }
        ensures unmet { lanes_where result (not wanted) ≡ unmet }
    {
        if wanted {
            Standing { free, unmet }
        } else {
            Standing {
                free: unmet,
                unmet: free,
            }
        }
    }

    /// Met in any order in each lane, or in none.
    pub(crate) fn everywhere(met: bool) -> Standing
        ensures { (lane : ℕ) → lane < 64 → StandsIn result lane (decided met) }
    {
        Standing::of(met, u64::MAX, 0)
    }

    /// The lanes in which the rule is met in any order, or those in which it is met in none.
    pub(crate) fn lanes_where(self, met: bool) -> u64
        ensures { result ≡ lanes_where self met }
    {
        if met { self.free } else { self.unmet }
    }

    /// Where the two parts are met that are joined so.
    pub(crate) fn with(self, other: Standing, connective: Connective) -> Standing
        ensures one { lanes_where result (decider connective) ≡
            bit_or (lanes_where self (decider connective)) (lanes_where other (decider connective)) }
        ensures both { lanes_where result (not (decider connective)) ≡
            bit_and (lanes_where self (not (decider connective))) (lanes_where other (not (decider connective))) }
    {
        match connective {
            Connective::And => Standing {
                free: self.free & other.free,
                unmet: self.unmet | other.unmet,
            },
            Connective::Or => Standing {
                free: self.free | other.free,
                unmet: self.unmet & other.unmet,
            },
        }
    }
}

/// Where the event happens, or does not where that is wanted.
pub(crate) fn event(lanes: &Lanes, wanted: bool, event: u32) -> Standing
    ensures { Stands result lanes.now (model.ways (event_form wanted event)) }
{
    let here = lanes.lanes_of(event);
    Standing::of(wanted, here, !here)
}

/// The lanes in which two events have a leaf each.
fn lanes_of_both(lanes: &Lanes, first: u32, second: u32) -> u64
    ensures { (lane : ℕ) (leaf : ℕ → Option ℕ) (wanted : Bool) → Shows lanes.now lane leaf →
        has_lane result lane ≡ is_some (pair_in leaf wanted first second) }
{
    if first == second {
        return 0;
    }
    lanes.lanes_of(first) & lanes.lanes_of(second)
}

/// Where an order of two events stands, or its negation where that is wanted.
pub(crate) fn order(lanes: &Lanes, wanted: bool, first: u32, second: u32) -> Standing
    ensures { Stands result lanes.now (model.ways (pair_form wanted first second)) }
{
    Standing::of(wanted, 0, !lanes_of_both(lanes, first, second))
}

/// Where the parts are met.
#[cycle(standing)]
pub(crate) fn parts_standing(connective: Connective, parts: &[Nnf], lanes: &Lanes) -> Standing
    ensures { Stands result lanes.now (λ leaf. ways_of_parts connective leaf parts.now) }
{
    let mut standing = Standing::everywhere(!decides(connective));
    for part in parts {
        standing = standing.with(standing_of(part, lanes), connective);
    }
    standing
}

/// Where the rule stands, in 64 lanes in one walk.
#[cycle(standing)]
#[inline(always)]
pub(crate) fn standing_of(rule: &Nnf, lanes: &Lanes) -> Standing
    ensures { Stands result lanes.now (model.ways (normal_of rule.now)) }
{
    match rule {
        Nnf::Event(wanted, number) => event(lanes, *wanted, *number),
        Nnf::Order(wanted, first, second) => order(lanes, *wanted, *first, *second),
        Nnf::Parts(connective, parts) => parts_standing(*connective, parts, lanes),
    }
}
