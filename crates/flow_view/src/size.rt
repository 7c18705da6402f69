/// The width of a letter, in pixels, as all that follows.
pub const LETTER: u32 = 9;

/// What the box of a leaf is wider than its letters.
pub const LEAST_WIDTH: u32 = 20;

/// How far the box of a leaf reaches up and down from its axis.
pub const LEAF_HALF: u32 = 20;

/// How far a `nop` does.
pub const NOP_HALF: u32 = 8;

/// What lies between two parts of a series. A `nop` is as wide.
pub const GAP: u32 = 24;

/// Half of what lies between the sides of a fork.
pub const SPLIT: u32 = 8;

/// The width of the bars at which the sides of a fork part and meet.
pub const BAR: u32 = 8;

/// What lies between a bar and the sides.
pub const FORK: u32 = 20;

/// What lies between the edge of a frame and what it holds, to the left and to the right.
pub const FRAME: u32 = 12;

/// The same above and below.
pub const CAPTION: u32 = 20;

/// What lies around the whole.
pub const MARGIN: u32 = 24;

/// The most that a picture is wide or high.
pub const MOST_PIXELS: u32 = 1_000_000_000;

/// The most bytes of a text that are shown.
pub const MOST_SHOWN: usize = 48;

/// The most arrows of a picture.
pub const MOST_ARROWS: usize = 4096;

/// How wide a part of a picture is, and how far it reaches up and down from its axis.
#[derive(Clone, Copy)]
pub struct Size {
    pub width: u32,
    pub half: u32,
}
