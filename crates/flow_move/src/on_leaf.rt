ghost use Rattle.std.specs.Prelude.{◌≡◌};
ghost use Rattle.flow_move.specs.Moves as moves;

use flow_model::Step;

/// The step on that leaf in place of its own. A step that has no leaf is kept.
pub(crate) fn on_leaf(step: Step, leaf: u32) -> Step
    ensures { result ≡ moves.on_leaf step leaf }
{
    match step {
        Step::Took { claim, leaf: _ } => Step::Took { claim, leaf },
        Step::Did { leaf: _ } => Step::Did { leaf },
        other => other,
    }
}
