/// An order between two leaves of a plan: the sender is done before the receiver.
#[derive(Clone, Copy)]
pub struct OrderToken {
    /// Which pair of the option's order it stands for, from 0.
    pub number: u32,
    /// The leaf that is done first.
    pub sender: u32,
    /// The leaf that waits.
    pub receiver: u32,
}
