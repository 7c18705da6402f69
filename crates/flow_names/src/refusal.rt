use crate::verb::Verb;
use std::alloc::AllocError;
use thiserror::Error;

/// Why a line is no command.
#[derive(Clone, Copy, Debug, Error)]
pub enum CommandRefusal {
    #[error("the line has no word")]
    Blank,
    /// No command begins with the first word. A verb that differs from it at one place was perhaps meant.
    #[error("no command begins so")]
    Unknown { near: Option<Verb> },
    /// The command wants a word that is not there.
    #[error("a word is missing")]
    Missing { verb: Verb },
    /// A word too many stands on the line.
    #[error("there is a word too many")]
    Behind { verb: Verb },
    /// Behind `@` stands no number.
    #[error("no number of a leaf stands there")]
    Leaf,
    #[error("out of memory")]
    NoMemory,
}

impl From<AllocError> for CommandRefusal {
    ghost use Rattle.std.specs.Prelude.{◌≡◌};
    ghost use Rattle.flow_names.specs.declared.refusal.CommandRefusal.TheVariants as refusal;

    ghost from_gives = { λ _ told. told ≡ refusal.NoMemory };

    fn from(_: AllocError) -> CommandRefusal {
        CommandRefusal::NoMemory
    }
}

/// Why a command means nothing in a run.
#[derive(Debug, Drop, Error)]
pub enum NameRefusal {
    /// No event has that name. The event whose name differs from it at one place was perhaps meant.
    #[error("no event has that name")]
    Unknown { near: Option<u32> },
    /// The leaf that was said has another label, or there is none of that number.
    #[error("the leaf is not of the event")]
    OtherLeaf { leaf: u32 },
    /// No leaf of the goal is of the event, or has the label.
    #[error("no leaf is so")]
    NoLeaf,
    /// Each of these leaves may be meant: one of them is to be said.
    #[error("several leaves may be meant")]
    Several(Vec<u32>),
    #[error("no claim on the event is out")]
    NotOut { event: u32 },
    #[error("out of memory")]
    NoMemory,
}

impl From<AllocError> for NameRefusal {
    ghost use Rattle.std.specs.Prelude.{◌≡◌};
    ghost use Rattle.flow_names.specs.declared.refusal.NameRefusal.TheVariants as refusal;

    ghost from_gives = { λ _ told. told ≡ refusal.NoMemory };

    fn from(_: AllocError) -> NameRefusal {
        NameRefusal::NoMemory
    }
}
