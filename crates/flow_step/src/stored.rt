ghost use Rattle.flow_step.specs.Stored.{WhatIsStoredIsLegal};

/// Whoever keeps the records that a step writes behind those that it was given keeps a lawful history, at each moment.
pub fn law_what_is_stored_is_legal()
    ensures { WhatIsStoredIsLegal }
{}
