use flow_ask::Refusal;
use flow_model::Entry;

/// What came of a step.
#[derive(Drop)]
pub enum Stepped {
    /// The line was taken. It made the entry, where it is no look.
    Made {
        entry: Option<Entry>,
        /// What `flow` replies to the line, without its line feed.
        reply: Vec<u8>,
        /// The leaves that may be begun now, rising.
        next: Vec<u32>,
    },
    /// The run or a duty refuses the line. A result that comes too late leaves an entry.
    Refused {
        refusal: Refusal,
        entry: Option<Entry>,
        reply: Vec<u8>,
    },
    /// The text, the policy or the line says nothing: what `flow` writes then, with its line feeds.
    Unread(Vec<u8>),
    /// The record of that number is the first that is no legal entry after those before it.
    Illegal(usize),
}
