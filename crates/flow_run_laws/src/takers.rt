ghost use Rattle.flow_run_laws.specs.ClaimTakers.{ClaimsOutHaveTakers, LeavesHaveOneTaker, TakersHaveRoles};

/// After every step, the leaf of a claim that is out is taken by the taker of the claim and by
/// nobody else; each event leaf that is done or under a claim has just one taker, and where duties
/// were looked at, some role allows him its event.
pub fn law_claims_that_are_out_have_takers()
    ensures claims { ClaimsOutHaveTakers }
    ensures leaves { LeavesHaveOneTaker }
    ensures roles { TakersHaveRoles }
{}
