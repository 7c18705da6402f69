ghost use Rattle.std.specs.Prelude.{◌≡◌};
ghost use Rattle.flow_reader.specs.Symbols.{meant};
ghost use Rattle.flow_case.specs.Reading as reading;

use flow_reader::Symbol;

/// What a statement of a case's rules is about.
#[derive(Clone, Copy)]
pub(crate) enum Kind {
    /// The events are final.
    Final,
    /// Users with the roles may step back.
    Back,
    /// Users with the roles may end the run.
    Close,
}

/// What a statement that begins with the word is about, if it is one of the rules.
pub(crate) fn kind_of(word: &[u8]) -> Option<Kind>
    ensures { result ≡ reading.kind_of word.now }
{
    if word == "final".as_bytes() {
        Some(Kind::Final)
    } else if word == "back".as_bytes() {
        Some(Kind::Back)
    } else if word == "close".as_bytes() {
        Some(Kind::Close)
    } else {
        None
    }
}

/// Where the reading of the rules stands.
#[derive(Clone, Copy)]
pub(crate) enum RuleStage {
    /// A statement begins, or the text ends.
    WordNeeded,
    NameNeeded(Kind),
    AfterName(Kind),
}

impl RuleStage {
    /// The stage behind a symbol. `None` where no rule goes on with it.
    pub(crate) fn next(self, symbol: Symbol<'_>) -> Option<RuleStage>
        ensures { result ≡ reading.next self (meant symbol.entry) }
    {
        match (self, symbol) {
            (RuleStage::WordNeeded, Symbol::Name(word)) => {
                let kind = kind_of(word)?;
                Some(RuleStage::NameNeeded(kind))
            }
            (RuleStage::NameNeeded(kind), Symbol::Name(_)) => Some(RuleStage::AfterName(kind)),
            (RuleStage::AfterName(kind), Symbol::Comma) => Some(RuleStage::NameNeeded(kind)),
            (RuleStage::AfterName(_), Symbol::Semicolon) => Some(RuleStage::WordNeeded),
            _ => None,
        }
    }
}

impl Kind {
    /// Whether it is that kind.
    pub(crate) fn is(self, other: Kind) -> bool
        ensures { result ≡ reading.is_kind self other }
    {
        match (self, other) {
            (Kind::Final, Kind::Final) | (Kind::Back, Kind::Back) | (Kind::Close, Kind::Close) =>
                true,
            _ => false,
        }
    }
}
