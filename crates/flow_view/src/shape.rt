use crate::scene::{Frame, Sides};

/// A rectangle on a canvas, on which places are counted from the left and from the top.
#[derive(Clone, Copy)]
pub struct Place {
    pub left: u32,
    pub top: u32,
    pub right: u32,
    pub bottom: u32,
}

/// What is drawn.
#[derive(Clone, Copy)]
pub enum Shape {
    /// The box of a leaf.
    Leaf(u32, Place),
    /// It stands in the list before all that it encloses.
    Frame(Frame, Place),
    /// At it sides part or meet.
    Bar(Sides, Place),
    /// A level line from the first place to the second, at the height that is told last.
    Line(u32, u32, u32),
}
