ghost use Rattle.std.specs.Prelude.{◌≡◌, ℕ, List, [], ◌∷◌, length};
ghost use Rattle.flow_model.specs.declared.history.Entry.{Entry};
ghost use Rattle.flow_model.specs.Lists.{◌∈◌};
ghost use Rattle.flow_model.specs.Schema.{IsGood};
ghost use Rattle.flow_model.specs.Resolution.{OptionTrace, resolutions, resolution_count, options, bulk};
ghost use Rattle.flow_model.specs.Circle.{IsCircle};
ghost use Rattle.flow_model.specs.Run.{IsLegal, state_of};
ghost use Rattle.flow_laws.specs.WellFormed.{IsWellFormed, IsConsistent};
ghost use Rattle.flow_laws.specs.Histories.{IsSound};
ghost use Rattle.test_laws.specs.Workflows.{knot, tied, loose};

/// Two choices of two sides make four resolutions, and the rules leave one way in each, of two pairs.
#[tactic(auto, using(crate::proofs::CircleLemmas::knot_is_well_formed))]
pub fn case_knot_has_four_options()
    ensures well_formed { IsWellFormed knot }
    ensures counted { resolution_count knot.goal ≡ 4 }
    ensures resolutions { length (resolutions knot.goal) ≡ 4 }
    ensures options { length (options knot) ≡ 4 }
    ensures bulk { bulk knot ≡ 24 }
{}

/// One resolution ties the four tasks into a ring (a waits for d, d for b, b for c, and c for a), so it has no execution.
#[tactic(auto, using(crate::proofs::CircleLemmas::tied_has_a_circle, crate::proofs::CircleLemmas::tied_has_no_trace))]
pub fn case_knot_has_a_circle()
    ensures option { tied ∈ options knot }
    ensures circle { IsCircle tied.resolution tied.order (0 ∷ 1 ∷ 4 ∷ 5 ∷ []) }
    ensures no_trace { (t : List ℕ) → ¬ (OptionTrace tied t) }
{}

/// Another resolution has an execution (c, d, a, b), which meets both rules, so every legal history can go on.
#[tactic(auto, using(crate::proofs::CircleLemmas::loose_has_a_trace, crate::proofs::CircleLemmas::trace_is_good, crate::proofs::CircleLemmas::knot_is_consistent, crate::proofs::CircleLemmas::legal_knot_states_are_sound))]
pub fn case_knot_is_consistent()
    ensures trace { (loose ∈ options knot) × OptionTrace loose (2 ∷ 6 ∷ 3 ∷ 7 ∷ []) }
    ensures good { IsGood knot (2 ∷ 6 ∷ 3 ∷ 7 ∷ []) }
    ensures consistent { IsConsistent knot }
    ensures sound { (limit : ℕ) (history : List Entry) → IsLegal knot limit history → IsSound knot (state_of knot history) }
{}
