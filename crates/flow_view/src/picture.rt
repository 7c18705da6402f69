use crate::arrow::Arrow;
use crate::shape::Shape;

/// What is drawn, and on how large a canvas.
#[derive(Drop)]
pub struct Picture {
    pub width: u32,
    pub height: u32,
    pub shapes: Vec<Shape>,
    pub arrows: Vec<Arrow>,
    /// Whether there are more arrows than these.
    pub left_out: bool,
}
