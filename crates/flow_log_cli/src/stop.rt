use crate::renaming::MapRefusal;
use flow_event_log::LogFault;
use std::alloc::AllocError;

/// Why nothing is told of a log.
#[derive(Debug, Drop)]
pub enum LogStop {
    /// The map is refused.
    Map(MapRefusal),
    /// The log is refused, or was not read.
    Log(LogFault),
    NoMemory,
}

impl From<AllocError> for LogStop {
    ghost use Rattle.std.specs.Prelude.{◌≡◌};
    ghost use Rattle.flow_log_cli.specs.declared.stop.LogStop.TheVariants.{NoMemory};

    ghost from_gives = { λ _ stop. stop ≡ NoMemory };

    fn from(_error: AllocError) -> LogStop {
        LogStop::NoMemory
    }
}

impl From<LogFault> for LogStop {
    ghost use Rattle.std.specs.Prelude.{◌≡◌};
    ghost use Rattle.flow_log_cli.specs.declared.stop.LogStop.TheVariants.{Log};

    ghost from_gives = { λ fault stop. stop ≡ Log fault };

    fn from(fault: LogFault) -> LogStop {
        LogStop::Log(fault)
    }
}

impl From<MapRefusal> for LogStop {
    ghost use Rattle.std.specs.Prelude.{◌≡◌};
    ghost use Rattle.flow_log_cli.specs.declared.stop.LogStop.TheVariants.{Map};

    ghost from_gives = { λ refusal stop. stop ≡ Map refusal };

    fn from(refusal: MapRefusal) -> LogStop {
        LogStop::Map(refusal)
    }
}
