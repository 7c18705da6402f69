ghost use Rattle.flow_facts.specs.Journals.{ReplayingIsPerforming, FrontsHaveFrontsOfLabels};

/// The state of a journal is that of the labels of its leaves, performed in its order.
pub fn law_replaying_is_performing()
    ensures replaying { ReplayingIsPerforming }
    ensures fronts { FrontsHaveFrontsOfLabels }
{}
