ghost use Rattle.std.specs.Prelude.{◌≡◌};
ghost use Rattle.flow_keep_cli.specs.Status.{code_of};

use flow_front::Status;

/// How a call ended.
#[derive(Clone, Copy)]
pub enum KeepStatus {
    /// As a call of `flow` does that drives. The file may also keep a run of another workflow, which is told as a bad input.
    Of(Status),
    /// The disk failed.
    Disk,
}

impl KeepStatus {
    /// The status of a process.
    pub fn code(self) -> u8
        ensures { result ≡ code_of self }
    {
        match self {
            KeepStatus::Of(status) => status.code(),
            KeepStatus::Disk => 8,
        }
    }
}
