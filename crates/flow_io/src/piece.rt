// How many bytes are moved at a time, through a buffer on the stack.
pub(crate) const PIECE: usize = 4096;
