ghost use Rattle.flow_lex.specs.Writing.{WordsAreRead, NumbersAreRead, MarksAreRead, BlanksAreSkipped};

/// What is written piece by piece, words and numbers ended by what cannot go on with them, is read so.
pub fn law_what_is_written_is_read()
    ensures words { WordsAreRead }
    ensures numbers { NumbersAreRead }
    ensures marks { MarksAreRead }
    ensures blanks { BlanksAreSkipped }
{}
