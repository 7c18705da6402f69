ghost use Rattle.std.specs.Prelude.{◌≡◌, ℕ, List, [], ◌∷◌};
ghost use Rattle.flow_model.specs.Schema.{IsGood};
ghost use Rattle.flow_model.specs.Resolution.{options};
ghost use Rattle.flow_model.specs.Circle.{IsCircle};
ghost use Rattle.flow_laws.specs.WellFormed.{IsWellFormed};
ghost use Rattle.test_laws.specs.Workflows.{broken_into, only_option};

/// A circle may lead through an isolated part: the rules ask a task to come into it, so the part waits for the task and
/// the task for the part, and no execution meets both rules.
#[tactic(auto, using(crate::proofs::CircleLemmas::broken_into_is_well_formed, crate::proofs::CircleLemmas::only_option_has_a_circle, crate::proofs::CircleLemmas::no_trace_breaks_in))]
pub fn case_isolation_keeps_others_out()
    ensures well_formed { IsWellFormed broken_into }
    ensures option { options broken_into ≡ only_option ∷ [] }
    ensures circle { IsCircle only_option.resolution only_option.order (0 ∷ 2 ∷ []) }
    ensures no_trace { (t : List ℕ) → ¬ (IsGood broken_into t) }
{}
