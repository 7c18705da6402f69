ghost use Rattle.std.specs.Prelude.{◌≡◌};
ghost use Rattle.flow_front.specs.Status.{code_of, status_of_compiling, status_of};

use flow_excise::CompileRefusal;
use flow_findings::Refused;

/// How a call ended. A process ends with its number, in this order from 0.
#[derive(Clone, Copy)]
pub enum Status {
    /// The run is committed, some execution meets the constraints, the property holds, the constraint follows
    /// from the others, each journal is an execution, or a workflow was generated.
    Fine,
    /// The run is not over, is stuck or has no other choice, no execution meets the constraints, some execution
    /// breaks the property or the constraint, or a journal is no execution.
    No,
    /// The words are no call of the program.
    Words,
    /// The input is not what the mode asks for, or too large.
    Input,
    /// The source failed.
    ReadFault,
    /// The sink failed.
    WriteFault,
    /// There was not enough memory.
    Memory,
    /// The history is as long as the limit.
    Spent,
}

impl Status {
    /// The status of a process.
    pub fn code(self) -> u8
        ensures { result ≡ code_of self }
    {
        match self {
            Status::Fine => 0,
            Status::No => 1,
            Status::Words => 2,
            Status::Input => 3,
            Status::ReadFault => 4,
            Status::WriteFault => 5,
            Status::Memory => 6,
            Status::Spent => 7,
        }
    }

    /// The status of a refusal.
    pub fn of(refused: &Refused) -> Status
        ensures { result ≡ status_of refused.now }
    {
        match refused {
            Refused::Words => Status::Words,
            Refused::Read => Status::ReadFault,
            Refused::TooLong
            | Refused::Text(_)
            | Refused::Query(_)
            | Refused::Policy(_)
            | Refused::Journals(_)
            | Refused::Record(_)
            | Refused::Expand(_)
            | Refused::NoRule(_) => Status::Input,
            Refused::Compile(refusal) => Status::of_compiling(refusal),
        }
    }

    /// The status where a workflow is not compiled.
    fn of_compiling(refusal: &CompileRefusal) -> Status
        ensures { result ≡ status_of_compiling refusal.now }
    {
        match refusal {
            CompileRefusal::Inconsistent { .. } => Status::No,
            CompileRefusal::TooManyChoices { .. }
            | CompileRefusal::TooManyWays { .. }
            | CompileRefusal::TooBulky { .. }
            | CompileRefusal::NoMemory => Status::Input,
        }
    }
}
