/// A choice that stays: its left side has the leaves from the first to the one before the middle, its right side those
/// from the middle to the one before the end.
#[derive(Clone, Copy, Debug)]
pub struct Fold {
    pub first: u32,
    pub middle: u32,
    pub end: u32,
}
