ghost use Rattle.std.specs.Prelude.{◌≡◌};
ghost use Rattle.flow_text.specs.declared.name_refusal.NameRefusal.TheVariants.{NoMemory};

use std::alloc::{AllocError, AllocFailed};

/// Which name of a text is wrong. Names are counted from 0 in the order of the text.
#[derive(Clone, Copy)]
pub(crate) enum NameRefusal {
    /// The first name that is declared a second time.
    Repeated { index: usize },
    /// The first name that is not declared as it must be.
    Unknown { index: usize },
    /// There is no memory for the test. Nothing is said of the names.
    NoMemory,
}

impl From<AllocError> for NameRefusal {
    ghost from_gives = { λ _ e. e ≡ NoMemory };

    fn from(_error: AllocError) -> NameRefusal {
        NameRefusal::NoMemory
    }
}

impl<T: Drop> From<AllocFailed<T>> for NameRefusal {
    ghost from_gives = { λ _ e. e ≡ NoMemory };

    fn from(_error: AllocFailed<T>) -> NameRefusal {
        NameRefusal::NoMemory
    }
}
