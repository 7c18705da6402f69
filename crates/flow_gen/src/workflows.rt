ghost use Rattle.flow_gen.specs.Laws.{WorkflowsAreExpanded, ExpansionsAreNotRefused, LeavesAreGoodTraces, WorkflowsAreConsistent};
ghost use Rattle.flow_gen.specs.Laws.{LeavesAreCounted, LeavesAreEvents, LabelsNeverWait, NotesAreDone};
ghost use Rattle.flow_gen.specs.Laws.{ChoicesAreFew, ChoicesDouble, ChoicesTakeFour, WaysAreSingle, OptionsAreResolutions, BulkIsSmall, WorkflowsAreWithinLimits};
ghost use Rattle.flow_gen.specs.Laws.{CompilingIsNotRefused, CompilingPartsIsNotRefused};

/// A generated workflow is never refused where it is expanded: it is small enough, and no execution holds an event
/// twice.
pub fn law_generated_workflows_are_expanded()
    ensures expanded { WorkflowsAreExpanded }
    ensures not_refused { ExpansionsAreNotRefused }
{}

/// The leaves of a generated workflow are its events, each once, in the order of their numbers: so nothing in it waits. Each
/// event is declared to succeed.
pub fn law_generated_leaves_are_events()
    ensures counted { LeavesAreCounted }
    ensures events { LeavesAreEvents }
    ensures never_wait { LabelsNeverWait }
    ensures notes { NotesAreDone }
{}

/// A generated workflow has an execution that meets every constraint: in each resolution the events in the order of
/// their numbers.
pub fn law_generated_workflows_are_consistent()
    ensures good_traces { LeavesAreGoodTraces }
    ensures consistent { WorkflowsAreConsistent }
{}

/// A generated workflow is within every limit: it has at most six choices, of two sides of four leaves each, and one option
/// for each resolution.
pub fn law_generated_workflows_are_within_limits()
    ensures few { ChoicesAreFew }
    ensures resolutions { ChoicesDouble }
    ensures leaves { ChoicesTakeFour }
    ensures ways { WaysAreSingle }
    ensures options { OptionsAreResolutions }
    ensures bulk { BulkIsSmall }
    ensures within { WorkflowsAreWithinLimits }
{}

/// A generated workflow is never refused where it is compiled, as a whole or as its tree and its rules.
pub fn law_generated_workflows_are_compiled()
    ensures whole { CompilingIsNotRefused }
    ensures parts { CompilingPartsIsNotRefused }
{}
