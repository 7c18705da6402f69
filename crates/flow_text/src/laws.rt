ghost use Rattle.flow_text.specs.Laws.{PrintsAreAscii, PrintsAreCut, PrintsAreSymbols, SaidIsPrintable, TextsSayOneThing, TextsHaveOneAnswer, QueriesHaveOneAnswer, PrintsSayIt, PrintsAreReadBack};

/// A text says at most one thing.
pub fn law_texts_say_one_thing()
    ensures { TextsSayOneThing }
{}

/// The contracts of `parse` and `parse_query` leave one answer to each text, or want of memory.
pub fn law_texts_have_one_answer()
    ensures of_scripts { TextsHaveOneAnswer }
    ensures of_queries { QueriesHaveOneAnswer }
{}

/// A workflow whose names are names and whose numbers have 32 bits is printed as ASCII text, and the tokens of that
/// text are those that the grammar prints it in.
#[tactic(auto, using(crate::proofs::PrintedTexts::prints_ascii, crate::proofs::PrintedTexts::prints_cut, crate::proofs::PrintedTexts::prints_symbols))]
pub fn law_prints_are_lexed()
    ensures ascii { PrintsAreAscii }
    ensures cut { PrintsAreCut }
    ensures symbols { PrintsAreSymbols }
{}

/// Whatever a text says has names that are names and numbers of 32 bits.
pub fn law_what_is_said_can_be_printed()
    ensures { SaidIsPrintable }
{}

/// A script that can be written at all is said by its print, and so is every script that some text says.
#[tactic(auto, using(crate::proofs::SaidLaws::prints_say_it, crate::proofs::SaidLaws::prints_are_read_back))]
pub fn law_printed_scripts_are_read_back()
    ensures every_script { PrintsSayIt }
    ensures what_was_said { PrintsAreReadBack }
{}
