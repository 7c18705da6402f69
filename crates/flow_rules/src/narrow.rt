ghost use Rattle.std.specs.Prelude.{◌≡◌, ◌<◌, ◌↔◌, ℕ, List, Option, IfOk, IsTrue};
ghost use Rattle.flow_model.specs.Ways as model;
ghost use Rattle.flow_rules.specs.Narrowed.{HasWaysIn};
ghost use Rattle.flow_rules.specs.Normal.{normal_of};
ghost use Rattle.flow_rules.specs.Standing.{Stands, has_lane};
ghost use Rattle.flow_rules.specs.WayLists.{ways_of_parts};

use crate::connective::decides;
use crate::lanes::Lanes;
use crate::normal::Nnf;
use crate::only::only;
use crate::standing::{Standing, event, order};
use flow_model::Connective;
use std::alloc::{AllocError, Global};

/// What is left of a rule in some lanes, and where the rule stands in all of them.
#[derive(Drop)]
pub(crate) struct Narrow {
    standing: Standing,
    pub(crate) rule: Nnf,
}

/// Whether each of the wanted lanes is in the word.
fn covers(word: u64, wanted: u64) -> bool
    ensures { IsTrue result ↔ ((lane : ℕ) → lane < 64 → IsTrue (has_lane wanted lane) → IsTrue (has_lane word lane)) }
{
    wanted & !word == 0
}

/// What is kept of parts as one rule. One alone stands for itself.
fn kept_rule(connective: Connective, mut kept: Vec<Nnf>) -> Nnf
    ensures { (leaf : ℕ → Option ℕ) → model.ways (normal_of result) leaf ≡ ways_of_parts connective leaf kept.items }
{
    match only(&mut kept) {
        Some(part) => part,
        None => Nnf::Parts(connective, kept),
    }
}

/// The parts without those that make no difference in any of the wanted lanes.
#[cycle(narrowing)]
fn narrow_parts(
    alloc: Global,
    connective: Connective,
    parts: &[Nnf],
    lanes: &Lanes,
    wanted: u64,
) -> Result<Narrow, AllocError>
    ensures standing { IfOk result (λ narrow. Stands narrow.standing lanes.now (λ leaf. ways_of_parts connective leaf parts.now)) }
    ensures ways { IfOk result (λ narrow. HasWaysIn narrow.rule wanted lanes.now (λ leaf. ways_of_parts connective leaf parts.now)) }
{
    let idle = !decides(connective);
    let mut standing = Standing::everywhere(idle);
    let mut kept = Vec::new(alloc);
    for part in parts {
        let narrow = narrow_rule(alloc, part, lanes, wanted)?;
        standing = standing.with(narrow.standing, connective);
        if covers(narrow.standing.lanes_where(idle), wanted) {
            drop(narrow);
        } else {
            kept.push(narrow.rule)?;
        }
    }
    Ok(Narrow {
        standing,
        rule: kept_rule(connective, kept),
    })
}

/// The rule without the parts that make no difference in the wanted lanes. Each part is looked at once.
#[cycle(narrowing)]
#[inline(always)]
pub(crate) fn narrow_rule(
    alloc: Global,
    rule: &Nnf,
    lanes: &Lanes,
    wanted: u64,
) -> Result<Narrow, AllocError>
    ensures standing { IfOk result (λ narrow. Stands narrow.standing lanes.now (model.ways (normal_of rule.now))) }
    ensures ways { IfOk result (λ narrow. HasWaysIn narrow.rule wanted lanes.now (model.ways (normal_of rule.now))) }
{
    match rule {
        Nnf::Event(met, number) => Ok(Narrow {
            standing: event(lanes, *met, *number),
            rule: Nnf::Event(*met, *number),
        }),
        Nnf::Order(met, first, second) => Ok(Narrow {
            standing: order(lanes, *met, *first, *second),
            rule: Nnf::Order(*met, *first, *second),
        }),
        Nnf::Parts(connective, parts) => narrow_parts(alloc, *connective, parts, lanes, wanted),
    }
}
