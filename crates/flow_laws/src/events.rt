ghost use Rattle.std.specs.Prelude.{◌≡◌, ◌≢◌, ℕ, length, Some, ◌↔◌};
ghost use Rattle.flow_model.specs.Process.{IsNumbered};
ghost use Rattle.flow_model.specs.Facts.{event_at};
ghost use Rattle.flow_model.specs.Schema.{Schema, HasUniqueEvents};
ghost use Rattle.flow_laws.specs.Events.{AreTogether};

/// No execution holds an event twice exactly where the least goal above two leaves of one event is always a choice.
#[tactic(auto, using(crate::proofs::EventsLemmas::events_apart, crate::proofs::EventsLemmas::unique_events))]
pub fn law_unique_events_by_least_goal()
    ensures { (w : Schema) → IsNumbered w.goal (length w.labels) → HasUniqueEvents w ↔ ((x y e : ℕ) →
        AreTogether w.goal x y → event_at w.labels x ≡ Some e → event_at w.labels y ≢ Some e) }
{}
