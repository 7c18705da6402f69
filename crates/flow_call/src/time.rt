use jiff::Timestamp;
use std::alloc::AllocError;
use std::time::Clock;

/// The present time as RFC 3339, to the second.
pub fn stamp<R: Clock + AllocGlobal>(rt: &R) -> Result<String, AllocError> {
    match Timestamp::now(rt) {
        Ok(now) => format!(in rt.alloc(); "{now:.0}"),
        Err(_) => format!(in rt.alloc(); "no time"),
    }
}
