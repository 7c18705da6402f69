ghost use Rattle.std.specs.Prelude.{◌≡◌, ℕ, ◌⊎◌, ◌↔◌};
ghost use Rattle.flow_model.specs.Run.{IsLegal, CanTake, first_state, state_of};
ghost use Rattle.flow_laws.specs.WellFormed.{IsWellFormed};
ghost use Rattle.test_laws.specs.Workflows.{plain, a_done, b_out, both_out};

/// The task at the front is the only one at first; once it is done the other two go side by side.
#[tactic(auto, using(crate::proofs::TakingLemmas::plain_is_well_formed, crate::proofs::TakingLemmas::first_only_a, crate::proofs::TakingLemmas::c_beside_b, crate::proofs::TakingLemmas::both_out_is_legal))]
pub fn case_plain_goes_side_by_side()
    ensures well_formed { IsWellFormed plain }
    ensures first { (n : ℕ) → CanTake plain first_state n ↔ (n ≡ 0) }
    ensures then { (n : ℕ) → CanTake plain (state_of plain a_done) n ↔ ((n ≡ 1) ⊎ (n ≡ 2)) }
    ensures beside { CanTake plain (state_of plain b_out) 2 }
    ensures together { IsLegal plain 7 both_out }
{}
