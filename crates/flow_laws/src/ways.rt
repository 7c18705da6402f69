ghost use Rattle.std.specs.Prelude.{ℕ, List, ◌↔◌};
ghost use Rattle.flow_model.specs.declared.labels.Label.{Label};
ghost use Rattle.flow_model.specs.Lists.{◌∈◌, AreDistinct, AreInOrder};
ghost use Rattle.flow_model.specs.Facts.{events_of};
ghost use Rattle.flow_model.specs.Constraint.{Constraint, Meets};
ghost use Rattle.flow_model.specs.Ways.{ways_of};
ghost use Rattle.flow_model.specs.Schema.{Schema, IsGood};
ghost use Rattle.flow_model.specs.Resolution.{ChoiceOption, options, OptionTrace};
ghost use Rattle.flow_laws.specs.WellFormed.{IsWellFormed};

/// A constraint is met by an execution exactly where one of its ways stands in order there: by any list of distinct
/// events with these leaves.
pub fn law_ways_decide_constraints()
    ensures { (c : Constraint) (labels : List Label) (t ls : List ℕ) → AreDistinct (events_of labels t) →
        AreDistinct ls → ((n : ℕ) → (n ∈ t) ↔ (n ∈ ls)) → Meets c (events_of labels t)
        ↔ ((way : List (ℕ × ℕ)) × (way ∈ ways_of c labels ls) × AreInOrder way t) }
{}

/// The executions that meet every constraint are those of the options.
pub fn law_options_cover_good_traces()
    ensures { (w : Schema) → IsWellFormed w → (t : List ℕ) → IsGood w t
        ↔ ((o : ChoiceOption) × (o ∈ options w) × OptionTrace o t) }
{}
