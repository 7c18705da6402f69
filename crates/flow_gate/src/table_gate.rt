ghost use Rattle.std.specs.Prelude.{◌≡◌, true};
ghost use Rattle.flow_gate.specs.TableGate.{outcome_in};

use crate::gate::Gate;
use flow_model::{Call, Outcome};
use std::marker::Model;

/// Tasks end as the rows of a table say.
#[derive(Drop)]
pub struct TableGate {
    rows: Vec<(u32, u32, Outcome)>,
}

impl Model for TableGate {
    ghost use Rattle.std.specs.Prelude.{ℕ, List};
    ghost use Rattle.flow_model.specs.declared.history.Outcome.{Outcome};

    ghost Value = { List (ℕ × ℕ × Outcome) };

    ghost view = { λ gate. gate.rows.items };
}

impl TableGate {
    /// A gate with these rows, each of a leaf, an attempt and an outcome.
    pub fn new(rows: Vec<(u32, u32, Outcome)>) -> TableGate
        ensures { result ≡ rows.items }
    {
        TableGate { rows }
    }

    /// The outcome of the first row with this leaf and attempt. A task without a row is done.
    fn outcome(&self, leaf: u32, attempt: u32) -> Outcome
        ensures { result ≡ outcome_in self.now leaf attempt }
    {
        for row in &self.rows {
            if row.0 == leaf && row.1 == attempt {
                return row.2;
            }
        }
        Outcome::Done
    }
}

impl Gate for TableGate {
    // a gate of this type may have any rows
    ghost gives = { λ _ _. true };

    fn perform(&self, call: Call) -> Outcome
        ensures gives { true ≡ true }
        ensures outcome { result ≡ outcome_in self.now call.leaf call.attempt }
    {
        self.outcome(call.leaf, call.attempt)
    }
}
