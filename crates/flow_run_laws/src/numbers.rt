ghost use Rattle.flow_run_laws.specs.OptionNumbers.{OptionsAreByNumber, FoldedOptionsAreByNumber, WaysAreByNumber, UnfoldingsMeasureTheSame, UnfoldingsAreCounted};
ghost use Rattle.flow_run_laws.specs.DroppedNumbers.{NumberedAreTheOptions, DroppedAreByNumber};

/// Options, folded or not, are numbered by their resolutions and then by their ways, and each
/// number is that of one resolution and one way. An option stands in the list as often as folded
/// options have it as an unfolding.
pub fn law_options_are_by_number()
    ensures options { OptionsAreByNumber }
    ensures folded { FoldedOptionsAreByNumber }
    ensures ways { WaysAreByNumber }
    ensures unfoldings { UnfoldingsMeasureTheSame }
    ensures counted { UnfoldingsAreCounted }
{}

/// The options that a workflow without an execution is refused for are told by number: each folded
/// option once, with its own numbers.
pub fn law_dropped_options_are_by_number()
    ensures numbered { NumberedAreTheOptions }
    ensures dropped { DroppedAreByNumber }
{}
