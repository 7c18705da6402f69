/// A read or a write that failed. What failed, and whether it would go better a second time, is
/// not told.
#[derive(Clone, Copy)]
pub struct Failed;

/// Why `read_all` gave no bytes.
#[derive(Clone, Copy)]
pub enum ReadRefusal {
    /// A read failed.
    ReadFault,
    /// There are more bytes than the limit.
    TooLong,
    /// There is no memory for them.
    NoMemory,
}
