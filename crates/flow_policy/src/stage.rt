ghost use Rattle.std.specs.Prelude.{◌≡◌};
ghost use Rattle.flow_reader.specs.Symbols.{meant};
ghost use Rattle.flow_policy.specs.Stages as stages;

use flow_reader::Symbol;

/// Where the reading of a policy stands.
#[derive(Clone, Copy)]
pub(crate) enum Stage {
    /// A statement begins, or the text ends.
    StatementNeeded,
    /// After `role`.
    RoleNeeded,
    EqualsNeeded,
    UserNeeded,
    AfterUser,
    /// After `allow`: the role that is allowed events.
    AllowedNeeded,
    EventNeeded,
    AfterEvent,
    SeparateFirst,
    SeparateSecond,
    BindFirst,
    BindSecond,
    PairRead,
}

/// The stage behind the word with which a statement begins.
fn after_word(word: &[u8]) -> Option<Stage>
    ensures { result ≡ stages.after_word word.now }
{
    if word == "role".as_bytes() {
        Some(Stage::RoleNeeded)
    } else if word == "allow".as_bytes() {
        Some(Stage::AllowedNeeded)
    } else if word == "separate".as_bytes() {
        Some(Stage::SeparateFirst)
    } else if word == "bind".as_bytes() {
        Some(Stage::BindFirst)
    } else {
        None
    }
}

impl Stage {
    fn after_name(self, name: &[u8]) -> Option<Stage>
        ensures { result ≡ stages.after_name self name.now }
    {
        match self {
            Stage::StatementNeeded => after_word(name),
            Stage::RoleNeeded => Some(Stage::EqualsNeeded),
            Stage::UserNeeded => Some(Stage::AfterUser),
            Stage::AllowedNeeded => Some(Stage::EventNeeded),
            Stage::EventNeeded => Some(Stage::AfterEvent),
            Stage::SeparateFirst => Some(Stage::SeparateSecond),
            Stage::BindFirst => Some(Stage::BindSecond),
            Stage::SeparateSecond | Stage::BindSecond => Some(Stage::PairRead),
            Stage::EqualsNeeded | Stage::AfterUser | Stage::AfterEvent | Stage::PairRead => None,
        }
    }

    fn after_equals(self) -> Option<Stage>
        ensures { result ≡ stages.after_equals self }
    {
        match self {
            Stage::EqualsNeeded => Some(Stage::UserNeeded),
            _ => None,
        }
    }

    fn after_comma(self) -> Option<Stage>
        ensures { result ≡ stages.after_comma self }
    {
        match self {
            Stage::AfterUser => Some(Stage::UserNeeded),
            Stage::AfterEvent => Some(Stage::EventNeeded),
            _ => None,
        }
    }

    fn after_semicolon(self) -> Option<Stage>
        ensures { result ≡ stages.after_semicolon self }
    {
        match self {
            Stage::AfterUser | Stage::AfterEvent | Stage::PairRead => Some(Stage::StatementNeeded),
            _ => None,
        }
    }

    /// The stage behind a symbol. `None` where no policy goes on with it.
    pub(crate) fn next(self, symbol: Symbol<'_>) -> Option<Stage>
        ensures { result ≡ stages.next self (meant symbol.entry) }
    {
        match symbol {
            Symbol::Name(name) => self.after_name(name),
            Symbol::Equals => self.after_equals(),
            Symbol::Comma => self.after_comma(),
            Symbol::Semicolon => self.after_semicolon(),
            _ => None,
        }
    }
}
