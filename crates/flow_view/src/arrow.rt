/// A constraint puts one leaf before another.
#[derive(Clone, Copy)]
pub struct Arrow {
    /// The number of the constraint, counted from 0.
    pub rule: usize,
    pub from: u32,
    pub to: u32,
}
