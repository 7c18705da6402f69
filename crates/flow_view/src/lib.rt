//! A picture of a workflow as data: its parts with their sizes, and where each stands on a canvas.
#![tactic(auto)]

mod arrow;
mod arrows;
mod build;
mod flows;
mod follow;
mod labels;
mod mark;
mod measure;
mod picture;
mod pictures;
mod placing;
mod refusal;
mod scene;
mod shape;
mod short;
mod size;
mod span;

pub use arrow::Arrow;
pub use build::scene_of;
pub use labels::{Labels, labels_of};
pub use mark::Mark;
pub use picture::Picture;
pub use pictures::picture_of;
pub use refusal::ViewRefusal;
pub use scene::{Fork, Frame, Scene, Sides};
pub use shape::{Place, Shape};
pub use short::shown;
pub use size::{
    BAR, CAPTION, FORK, FRAME, GAP, LEAF_HALF, LEAST_WIDTH, LETTER, MARGIN, MOST_ARROWS,
    MOST_PIXELS, MOST_SHOWN, NOP_HALF, SPLIT, Size,
};
