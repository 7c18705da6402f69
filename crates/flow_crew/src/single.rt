ghost use Rattle.flow_crew.specs.Single.{BeginsAreSingle, PostedsAreSingle, BothAreSingle};

/// Each turn has one answer, and leaves one run.
pub fn law_turns_are_single()
    ensures begins { BeginsAreSingle }
    ensures posts { PostedsAreSingle }
    ensures both { BothAreSingle }
{}
