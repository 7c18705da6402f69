ghost use Rattle.std.specs.Prelude.{◌≡◌, ◌↔◌, length, IsTrue, IfOk};
ghost use Rattle.flow_policy.specs.Ties.{AreTies, Rises};
ghost use Rattle.flow_policy.specs.Tables.{AreBothWays, AreFirstWays, EndsWith, IsRowBelow};

use crate::tie::Tie;
use std::alloc::{AllocError, Global};
use std::marker::Model;

/// Pairs of events by their numbers, and for each event what it is paired with.
#[derive(Drop)]
pub(crate) struct TieTable {
    pairs: Vec<(u32, u32)>,
    ties: Vec<Tie>,
}

impl Model for TieTable {
    ghost use Rattle.std.specs.Prelude.{List, ℕ};

    ghost Value = { List (ℕ × ℕ) };

    ghost use Rattle.flow_policy.specs.Tables.{AreTiesOf};

    ghost view = { λ t. t.pairs.items };

    ghost invariant = { λ t. AreTiesOf t.pairs.items t.ties.items };
}

/// Both events of each pair with the other one and the number of the pair. There are fewer pairs than numbers, or want of memory is
/// told.
fn both_ways(alloc: Global, pairs: &[(u32, u32)]) -> Result<Vec<(u32, u32, u32)>, AllocError>
    ensures { IfOk result (λ rows. AreBothWays pairs.now (length pairs.now) rows.items) }
{
    let mut rows = Vec::new(alloc);
    for (place, pair) in pairs.iter().enumerate() {
        let Ok(index) = u32::try_from(place) else {
            return Err(AllocError);
        };
        rows.push((pair.0, pair.1, index))?;
        rows.push((pair.1, pair.0, index))?;
    }
    Ok(rows)
}

/// Whether the last tie is of these two events.
fn ends_with(ties: &[Tie], event: u32, other: u32) -> bool
    ensures { IsTrue result ↔ EndsWith ties.now event other }
{
    match ties.last() {
        Some(tie) => tie.event == event && tie.other == other,
        None => false,
    }
}

/// The first row of each two events, as a tie.
fn first_ways(alloc: Global, rows: &[(u32, u32, u32)]) -> Result<Vec<Tie>, AllocError>
    requires { Rises IsRowBelow rows.now }
    ensures { IfOk result (λ ties. AreFirstWays rows.now ties.items) }
{
    let mut ties: Vec<Tie> = Vec::new(alloc);
    for row in rows {
        if !ends_with(&ties, row.0, row.1) {
            ties.push(Tie {
                event: row.0,
                index: row.2,
                other: row.1,
            })?;
        }
    }
    Ok(ties)
}

impl TieTable {
    pub(crate) fn new(alloc: Global, pairs: Vec<(u32, u32)>) -> Result<TieTable, AllocError>
        ensures { IfOk result (λ table. table ≡ pairs.items) }
    {
        let mut rows = both_ways(alloc, &pairs)?;
        rows.sort_unstable();
        let mut ties = first_ways(alloc, &rows)?;
        ties.sort_unstable();
        Ok(TieTable { pairs, ties })
    }

    /// What the event is paired with, by the numbers of the pairs. Of equal pairs the first alone is among them.
    pub(crate) fn of_event(&self, event: u32) -> &[Tie]
        ensures { AreTies self.now event result.now }
    {
        let start = self.ties.partition_point(|tie| tie.event < event);
        let rest = &self.ties[start..];
        let count = rest.partition_point(|tie| tie.event <= event);
        &rest[..count]
    }
}
