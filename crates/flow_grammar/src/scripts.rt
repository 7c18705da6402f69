ghost use Rattle.flow_grammar.specs.Texts.{SpellsScript};
ghost use Rattle.flow_grammar.specs.Machine.{read_script, step_script, finish_script, wanted_script, depth_script, script_wants};
ghost use Rattle.flow_grammar.specs.Steps.{GoesByStep};
ghost use Rattle.flow_grammar.specs.Made.{ScriptsAreWellMade};
ghost use Rattle.flow_grammar.specs.Laws.{ReadsJustThese, SaysOneThing, IsStuckJustThere, IsTooDeepJustThere, WantsWhatCouldCome, TellsWhatIsWanted};

/// What the machine finds in the symbols of a workflow text, in the grammar's terms.
#[tactic(auto, using(crate::proofs::Reading::scripts_are_read, crate::proofs::RunSteps::goes_by_step))]
pub fn law_scripts_are_read()
    ensures reads { ReadsJustThese SpellsScript read_script }
    ensures one_thing { SaysOneThing SpellsScript }
    ensures is_stuck { IsStuckJustThere SpellsScript read_script }
    ensures is_too_deep { IsTooDeepJustThere SpellsScript read_script }
    ensures wants { WantsWhatCouldCome SpellsScript read_script }
    ensures by_the_table { TellsWhatIsWanted script_wants read_script }
    ensures by_step { GoesByStep step_script finish_script wanted_script depth_script }
{}

/// What a workflow text says keeps what the next layers ask of it.
pub fn law_scripts_are_well_made()
    ensures { ScriptsAreWellMade }
{}
