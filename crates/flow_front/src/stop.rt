ghost use Rattle.std.specs.Prelude.{◌≡◌};
ghost use Rattle.flow_front.specs.Stop.{query_stop};

use flow_excise::CompileRefusal;
use flow_findings::Refused;
use flow_form::TextRefusal;
use flow_io::ReadRefusal;
use flow_policy::PolicyRefusal;
use flow_record::RecordRefusal;
use flow_workflow::ExpandRefusal;
use std::alloc::{AllocError, AllocFailed};

/// Why a call finds nothing.
#[derive(Drop)]
pub enum Stop {
    Refused(Refused),
    /// There was not enough memory. Nothing is said of the input.
    NoMemory,
}

impl Stop {
    /// A refusal of the text of a query, which reads as one of the text of a workflow does.
    pub fn of_query(refusal: TextRefusal) -> Stop
        ensures { result ≡ query_stop refusal }
    {
        match refusal {
            TextRefusal::NoMemory => Stop::NoMemory,
            refusal => Stop::Refused(Refused::Query(refusal)),
        }
    }
}

impl From<AllocError> for Stop {
    ghost use Rattle.flow_front.specs.declared.stop.Stop.TheVariants.{NoMemory};

    ghost from_gives = { λ _ stop. stop ≡ NoMemory };

    fn from(_error: AllocError) -> Stop {
        Stop::NoMemory
    }
}

impl<T: Drop> From<AllocFailed<T>> for Stop {
    ghost use Rattle.flow_front.specs.declared.stop.Stop.TheVariants.{NoMemory};

    ghost from_gives = { λ _ stop. stop ≡ NoMemory };

    fn from(_failed: AllocFailed<T>) -> Stop {
        Stop::NoMemory
    }
}

impl From<ReadRefusal> for Stop {
    ghost use Rattle.flow_front.specs.Stop.{read_stop};

    ghost from_gives = { λ refusal stop. stop ≡ read_stop refusal };

    fn from(refusal: ReadRefusal) -> Stop {
        match refusal {
            ReadRefusal::ReadFault => Stop::Refused(Refused::Read),
            ReadRefusal::TooLong => Stop::Refused(Refused::TooLong),
            ReadRefusal::NoMemory => Stop::NoMemory,
        }
    }
}

impl From<TextRefusal> for Stop {
    ghost use Rattle.flow_front.specs.Stop.{text_stop};

    ghost from_gives = { λ refusal stop. stop ≡ text_stop refusal };

    fn from(refusal: TextRefusal) -> Stop {
        match refusal {
            TextRefusal::NoMemory => Stop::NoMemory,
            refusal => Stop::Refused(Refused::Text(refusal)),
        }
    }
}

impl From<PolicyRefusal> for Stop {
    ghost use Rattle.flow_front.specs.Stop.{policy_stop};

    ghost from_gives = { λ refusal stop. stop ≡ policy_stop refusal };

    fn from(refusal: PolicyRefusal) -> Stop {
        match refusal {
            PolicyRefusal::NoMemory => Stop::NoMemory,
            refusal => Stop::Refused(Refused::Policy(refusal)),
        }
    }
}

impl From<RecordRefusal> for Stop {
    ghost use Rattle.flow_front.specs.Stop.{record_stop};

    ghost from_gives = { λ refusal stop. stop ≡ record_stop refusal };

    fn from(refusal: RecordRefusal) -> Stop {
        match refusal {
            RecordRefusal::NoMemory => Stop::NoMemory,
            refusal => Stop::Refused(Refused::Record(refusal)),
        }
    }
}

impl From<ExpandRefusal> for Stop {
    ghost use Rattle.flow_front.specs.Stop.{expand_stop};

    ghost from_gives = { λ refusal stop. stop ≡ expand_stop refusal };

    fn from(refusal: ExpandRefusal) -> Stop {
        match refusal {
            ExpandRefusal::NoMemory => Stop::NoMemory,
            refusal => Stop::Refused(Refused::Expand(refusal)),
        }
    }
}

impl From<CompileRefusal> for Stop {
    ghost use Rattle.flow_front.specs.Stop.{compile_stop};

    ghost from_gives = { λ refusal stop. stop ≡ compile_stop refusal };

    fn from(refusal: CompileRefusal) -> Stop {
        match refusal {
            CompileRefusal::NoMemory => Stop::NoMemory,
            refusal => Stop::Refused(Refused::Compile(refusal)),
        }
    }
}
