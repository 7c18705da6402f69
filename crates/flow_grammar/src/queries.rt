ghost use Rattle.flow_grammar.specs.Texts.{SpellsQuery};
ghost use Rattle.flow_grammar.specs.Machine.{read_query, step_query, finish_query, wanted_query, depth_query, query_wants};
ghost use Rattle.flow_grammar.specs.Steps.{GoesByStep};
ghost use Rattle.flow_grammar.specs.Made.{QueriesAreWellMade};
ghost use Rattle.flow_grammar.specs.Laws.{ReadsJustThese, SaysOneThing, IsStuckJustThere, IsTooDeepJustThere, WantsWhatCouldCome, TellsWhatIsWanted};

/// What the machine finds in the symbols of a query, in the grammar's terms.
#[tactic(auto, using(crate::proofs::Reading::queries_are_read, crate::proofs::RunSteps::goes_by_step))]
pub fn law_queries_are_read()
    ensures reads { ReadsJustThese SpellsQuery read_query }
    ensures one_thing { SaysOneThing SpellsQuery }
    ensures is_stuck { IsStuckJustThere SpellsQuery read_query }
    ensures is_too_deep { IsTooDeepJustThere SpellsQuery read_query }
    ensures wants { WantsWhatCouldCome SpellsQuery read_query }
    ensures by_the_table { TellsWhatIsWanted query_wants read_query }
    ensures by_step { GoesByStep step_query finish_query wanted_query depth_query }
{}

/// What a query asks has two or more members in each list.
pub fn law_queries_are_well_made()
    ensures { QueriesAreWellMade }
{}
