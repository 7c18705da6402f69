ghost use Rattle.std.specs.Prelude.{◌≡◌, ℕ, ◌≤◌, List, [], ◌↔◌};
ghost use Rattle.flow_model.specs.declared.history.Entry.{Entry};
ghost use Rattle.flow_model.specs.Lists.{Each, Begins};
ghost use Rattle.flow_model.specs.Schema.{Schema};
ghost use Rattle.flow_model.specs.Run.{Claim, RunState, current_leaves, with_new_epoch, IsLegal, state_of};
ghost use Rattle.flow_laws.specs.WellFormed.{IsWellFormed, IsConsistent};
ghost use Rattle.flow_laws.specs.Histories.{IsSound, NeverAtALoss, NeverStuckWithoutTests};
ghost use Rattle.flow_laws.specs.Spared.{AreSpared, spared_leaves, AnswersAreTheTest, OthersStay, SparedPieceByPiece};

/// Whatever legal history was made, in some option its claims may still be answered in every order.
pub fn law_legal_states_extend()
    ensures { (w : Schema) → IsWellFormed w → IsConsistent w → (limit : ℕ) (history : List Entry) →
        IsLegal w limit history → (front : List Entry) → Begins history front → IsSound w (state_of w front) }
{}

/// A run that is not over has a claim to wait for or a leaf to go on with. Only tests and absences can keep it waiting.
pub fn law_never_at_a_loss()
    ensures goes_on { NeverAtALoss }
    ensures without_tests { NeverStuckWithoutTests }
{}

/// A new epoch spares each claim in turn that may follow in every order with those spared before it, and no other.
#[tactic(auto, using(crate::proofs::ClaimLemmas::answers_are_the_test, crate::proofs::ClaimLemmas::spare_is, crate::proofs::ClaimLemmas::spare_only))]
pub fn law_new_epochs_spare()
    ensures just_these { (w : Schema) (s : RunState) (left : List Claim) → AreSpared w s [] s.claims left
        ↔ (left ≡ (with_new_epoch w s).claims) }
    ensures current { (w : Schema) (s : RunState) → Each (λ (claim : Claim). claim.epoch ≤ s.epoch) s.claims →
        current_leaves (with_new_epoch w s) ≡ spared_leaves w s [] s.claims }
    ensures others { OthersStay }
    ensures pieces { SparedPieceByPiece }
    ensures test { AnswersAreTheTest }
{}
