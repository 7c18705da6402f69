ghost use Rattle.std.specs.Prelude.{◌≡◌};

use flow_ask::Refusal;
use std::fmt::Display;
use thiserror::Error;

/// Why a call of a keep did not do what it is for. The causes are looked for in this order.
#[derive(Clone, Copy, Debug, Error)]
#[error_bound(R: Display)]
pub enum KeptRefusal<R> {
    /// Nothing is done any more.
    #[error("an earlier call failed at the disk")]
    Broken,
    #[error("{0}")]
    Core(R),
    /// The run has the entry, and the file may have it or not.
    #[error("the disk failed")]
    DiskFault,
}

impl From<KeptRefusal<Refusal>> for Refusal {
    ghost use Rattle.flow_keep.specs.Answered.{of_kept};

    ghost from_gives = { λ refusal told. told ≡ of_kept refusal };

    fn from(refusal: KeptRefusal<Refusal>) -> Refusal {
        match refusal {
            KeptRefusal::Broken => Refusal::Broken,
            KeptRefusal::Core(refusal) => refusal,
            KeptRefusal::DiskFault => Refusal::Disk,
        }
    }
}

/// Why no run is made of a file.
#[derive(Clone, Copy, Debug, Error)]
pub enum KeepRefusal {
    #[error("the disk failed")]
    DiskFault,
    /// That record tells no entry, or none that is legal after those before it, and it is the first such.
    #[error("record {index} is of no run of this workflow")]
    Foreign { index: u32 },
    #[error("there is not enough memory")]
    NoMemory,
}
