ghost use Rattle.flow_reply.specs.Single.{LooksAreSingle, ReportsAreSingle};

/// What is written of a run is settled by the run: a look has one text, and a verdict one report. An answer has one by its definition.
pub fn law_replies_are_single()
    ensures looks { LooksAreSingle }
    ensures reports { ReportsAreSingle }
{}
