use flow_core::End;

/// What a run came to, where it came to an end.
#[derive(Clone, Copy)]
pub enum Verdict {
    Ended(End),
    Unfinished,
}
