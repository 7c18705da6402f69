ghost use Rattle.std.specs.Prelude.{◌≡◌};
ghost use Rattle.flow_form.specs.declared.refusal.TextRefusal.TheVariants.{NoMemory};

use flow_facts::Name;
use std::alloc::{AllocError, AllocFailed};
use std::fmt::{self, Display, Formatter};
use thiserror::Error;

/// What a text needs at the place where it goes wrong.
#[derive(Clone, Copy, Debug)]
pub enum Wanted {
    /// A declaration or the goal.
    Declaration,
    /// A constraint or the end.
    Constraint,
    /// The name of an event or sub-workflow.
    Name,
    /// The relation of a fact.
    Fact,
    Constant,
    /// A goal that is no list.
    Atom,
    /// A constraint that is no list.
    Rule,
    Opening,
    Closing,
    Equals,
    Semicolon,
    Query,
    Number,
    End,
}

impl Display for Wanted {
    fn fmt<W: fmt::Write>(&self, f: &mut Formatter<W>) -> fmt::Result {
        f.write_str(match self {
            Wanted::Declaration => "a declaration or the goal",
            Wanted::Constraint => "a constraint or the end",
            Wanted::Name => "the name of an event or sub-workflow",
            Wanted::Fact => "a fact",
            Wanted::Constant => "a constant",
            Wanted::Atom => "a goal",
            Wanted::Rule => "a rule",
            Wanted::Opening => "an opening parenthesis",
            Wanted::Closing => "a closing parenthesis",
            Wanted::Equals => "an equals sign",
            Wanted::Semicolon => "a semicolon",
            Wanted::Query => "a query",
            Wanted::Number => "a number",
            Wanted::End => "the end",
        })
    }
}

/// Why a text gives no workflow or no query. Places are offsets in bytes.
#[derive(Debug, Drop, Error)]
pub enum TextRefusal {
    /// The first byte over 127.
    #[error("byte {place} is not ASCII")]
    NotAscii { place: usize },
    /// The first byte that begins no token, or the first of a number over the greatest `u32`.
    #[error("no token begins at byte {place}")]
    BadToken { place: usize },
    /// The first token with which no text goes on, or the end of the text.
    #[error("{kind} is expected at byte {place}")]
    Expected { place: usize, kind: Wanted },
    /// The first name that is not declared as it must be.
    #[error("{name} at byte {place} is not declared as it must be")]
    Unknown { place: usize, name: Name },
    /// The first name that is declared a second time.
    #[error("{name} at byte {place} is declared a second time")]
    Repeated { place: usize, name: Name },
    /// The parenthesis or `not` that stands inside `GREATEST_DEPTH` others.
    #[error("what opens at byte {place} stands too deep")]
    TooDeep { place: usize },
    /// There is no memory for the workflow. Nothing is said of the text.
    #[error("out of memory")]
    NoMemory,
}

impl From<AllocError> for TextRefusal {
    ghost from_gives = { λ _ e. e ≡ NoMemory };

    fn from(_error: AllocError) -> TextRefusal {
        TextRefusal::NoMemory
    }
}

impl<T: Drop> From<AllocFailed<T>> for TextRefusal {
    ghost from_gives = { λ _ e. e ≡ NoMemory };

    fn from(_error: AllocFailed<T>) -> TextRefusal {
        TextRefusal::NoMemory
    }
}
