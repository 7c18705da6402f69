ghost use Rattle.flow_grammar.specs.PrintLaws.{PrintSaysIt, PrintIsNoDeeper, PrintIsReadBack};

/// What a workflow says, printed with as few parentheses as may be, is read back.
pub fn law_prints_are_read_back()
    ensures says_it { PrintSaysIt }
    ensures no_deeper { PrintIsNoDeeper }
    ensures read_back { PrintIsReadBack }
{}
