ghost use Rattle.std.specs.Prelude.{◌≡◌, ◌↔◌, ℕ, IsTrue};
ghost use Rattle.flow_model.specs.Lists.{◌∈◌};
ghost use Rattle.flow_policy.specs.Policy.{AreRising, AreJust};
ghost use Rattle.flow_policy.specs.Tables.{IsPartOf, SecondsRise, ShareSecond};

use std::marker::Model;

/// Users or events with their roles, rising and each pair once.
#[derive(Drop)]
pub(crate) struct RoleTable {
    rows: Vec<(u32, u32)>,
}

impl Model for RoleTable {
    ghost use Rattle.std.specs.Prelude.{List, ℕ};

    ghost Value = { List (ℕ × ℕ) };

    ghost use Rattle.flow_policy.specs.Policy.{AreRising};

    ghost view = { λ t. t.rows.items };

    ghost invariant = { λ t. AreRising t.rows.items };
}

/// Whether a role stands in both.
fn share_role(mut mine: &[(u32, u32)], mut theirs: &[(u32, u32)]) -> bool
    requires mine { SecondsRise mine.now }
    requires theirs { SecondsRise theirs.now }
    ensures { IsTrue result ↔ ShareSecond mine.entry.now theirs.entry.now }
{
    while let Some((one, more)) = mine.split_first() {
        let Some((other, others)) = theirs.split_first() else {
            return false;
        };
        if one.1 == other.1 {
            return true;
        }
        if one.1 < other.1 {
            mine = more;
        } else {
            theirs = others;
        }
    }
    false
}

impl RoleTable {
    /// The table of these pairs, in no order and some perhaps more than once.
    pub(crate) fn new(mut rows: Vec<(u32, u32)>) -> RoleTable
        ensures rising { AreRising result }
        ensures same { AreJust result rows.items }
    {
        rows.sort_unstable();
        rows.dedup();
        RoleTable { rows }
    }

    /// The rows of that user or event.
    fn part(&self, key: u32) -> &[(u32, u32)]
        ensures part { IsPartOf (λ (row : ℕ × ℕ). row.0) key self.now result.now }
        ensures rising { SecondsRise result.now }
    {
        let start = self.rows.partition_point(|row| row.0 < key);
        let rest = &self.rows[start..];
        let count = rest.partition_point(|row| row.0 <= key);
        &rest[..count]
    }

    /// Whether it has a role that the other has in that table.
    pub(crate) fn shares(&self, key: u32, table: &RoleTable, other: u32) -> bool
        ensures { IsTrue result ↔ ((role : ℕ) × ((key, role) ∈ self.now) × ((other, role) ∈ table.now)) }
    {
        share_role(self.part(key), table.part(other))
    }
}
