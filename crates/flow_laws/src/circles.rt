ghost use Rattle.flow_laws.specs.Circles.{CirclesExcludeTraces, TraceOrCircle};

/// An option has a circle exactly where it has no execution.
#[tactic(auto, using(crate::proofs::CircleOrTrace::trace_or_circle))]
pub fn law_circle_exactly_without_trace()
    ensures excludes { CirclesExcludeTraces }
    ensures one_of_the_two { TraceOrCircle }
{}
