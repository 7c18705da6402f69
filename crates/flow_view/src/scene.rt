use crate::size::Size;

/// What the sides of a fork are.
#[derive(Clone, Copy)]
pub enum Sides {
    /// All of them, beside one another.
    Beside,
    /// One of them.
    Either,
}

/// What parts of a picture stand above one another.
#[derive(Clone, Copy)]
pub struct Fork {
    pub sides: Sides,
    /// Whether it has bars of its own. A fork that is a side of one of the same kind has not: its sides are sides of that.
    pub barred: bool,
}

/// What a part of a picture is framed as.
#[derive(Clone, Copy)]
pub enum Frame {
    Iso,
    /// A sub-workflow that was put in: its number among those that are declared, and how many letters its caption has.
    Called(usize, u32),
}

/// A picture's parts, each with its size.
#[derive(Drop)]
pub enum Scene {
    Nop,
    /// A leaf, and how many letters its box shows.
    Leaf(u32, u32),
    /// The left part, and then the right one.
    Serial(Size, Box<Scene>, Box<Scene>),
    /// The first part above the second.
    Forked(Fork, Size, Box<Scene>, Box<Scene>),
    Framed(Frame, Size, Box<Scene>),
}
