use flow_ask::{Ask, Look};

/// One line of a session. Leaves and claims go by their numbers.
#[derive(Clone, Copy)]
pub enum Command {
    Ask(Ask),
    Look(Look),
}
