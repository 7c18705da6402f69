ghost use Rattle.std.specs.Prelude.{◌≡◌, ℕ, List, [], ◌∷◌, length};
ghost use Rattle.flow_model.specs.Lists.{◌∈◌, IsOrderOf};
ghost use Rattle.flow_model.specs.Schema.{IsGood};
ghost use Rattle.flow_model.specs.Resolution.{ChoiceOption, options, bulk};
ghost use Rattle.flow_model.specs.Run.{IsLegal, CanTake, MayFollow, first_state, state_of};
ghost use Rattle.flow_laws.specs.WellFormed.{IsWellFormed};
ghost use Rattle.test_laws.specs.Workflows.{either_way, one_out};

/// Each order is an option of its own, of two leaves and one pair.
#[tactic(auto, using(crate::proofs::TakingLemmas::either_way_is_well_formed, crate::proofs::TakingLemmas::both_orders_are_good))]
pub fn case_either_order_has_two_options()
    ensures well_formed { IsWellFormed either_way }
    ensures options { length (options either_way) ≡ 2 }
    ensures bulk { bulk either_way ≡ 6 }
    ensures good { IsGood either_way (0 ∷ 1 ∷ []) × IsGood either_way (1 ∷ 0 ∷ []) }
{}

/// Either task may come first, and yet the two are never out together: no one option has both orders.
#[tactic(auto, using(crate::proofs::TakingLemmas::either_can_be_taken, crate::proofs::TakingLemmas::no_option_has_both_orders, crate::proofs::TakingLemmas::one_out_is_legal, crate::proofs::TakingLemmas::other_cannot_be_taken))]
pub fn case_either_order_one_at_a_time()
    ensures either { CanTake either_way first_state 0 × CanTake either_way first_state 1 }
    ensures no_option { (o : ChoiceOption) → o ∈ options either_way →
        ¬ ((order : List ℕ) → IsOrderOf order (0 ∷ 1 ∷ []) → MayFollow either_way first_state o order) }
    ensures legal { IsLegal either_way 4 one_out }
    ensures other { ¬ (CanTake either_way (state_of either_way one_out) 1) }
{}
