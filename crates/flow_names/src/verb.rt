ghost use Rattle.std.specs.Prelude.{◌≡◌};
ghost use Rattle.flow_names.specs.Verbs.{word_of, verb_of, verb_near};

use flow_fault::is_near;

/// The first word of a command.
#[derive(Clone, Copy, Debug, PartialEq, Eq)]
pub enum Verb {
    Take,
    Done,
    Fail,
    Do,
    Rewind,
    Commit,
    Tidy,
    Todo,
    Why,
    History,
    Undone,
    Facts,
    Report,
}

/// Each of them once.
const VERBS: [Verb; 13] = [
    Verb::Take,
    Verb::Done,
    Verb::Fail,
    Verb::Do,
    Verb::Rewind,
    Verb::Commit,
    Verb::Tidy,
    Verb::Todo,
    Verb::Why,
    Verb::History,
    Verb::Undone,
    Verb::Facts,
    Verb::Report,
];

impl Verb {
    /// The word itself.
    pub fn word(self) -> &'static str
        ensures { result.now ≡ word_of self }
    {
        match self {
            Verb::Take => "take",
            Verb::Done => "done",
            Verb::Fail => "fail",
            Verb::Do => "do",
            Verb::Rewind => "rewind",
            Verb::Commit => "commit",
            Verb::Tidy => "tidy",
            Verb::Todo => "todo",
            Verb::Why => "why",
            Verb::History => "history",
            Verb::Undone => "undone",
            Verb::Facts => "facts",
            Verb::Report => "report",
        }
    }

    /// The verb of that word.
    pub(crate) fn of(word: &[u8]) -> Option<Verb>
        ensures { result ≡ verb_of word.now }
    {
        VERBS
            .iter()
            .copied()
            .find(|verb| verb.word().as_bytes() == word)
    }

    /// The first verb that differs from the word at one place.
    pub(crate) fn near(word: &[u8]) -> Option<Verb>
        ensures { result ≡ verb_near word.now }
    {
        VERBS
            .iter()
            .copied()
            .find(|verb| is_near(word, verb.word().as_bytes()))
    }
}
