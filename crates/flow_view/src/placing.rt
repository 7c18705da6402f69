ghost use Rattle.std.specs.Prelude.{◌≡◌, ◌+◌, ◌*◌, ◌≤◌, ◌<◌, ◌^◌, ◌++◌, ◌∷◌, [], OnOk};
ghost use Rattle.flow_view.specs.Placing.{HasRoom};
ghost use Rattle.flow_view.specs.Shapes.{led, line, lower, shapes_in, start, upper};
ghost use Rattle.flow_view.specs.Sizes.{IsMeasured, half, width};
ghost use Rattle.flow_view.specs.Sketch.{sketch_of};

use crate::scene::Scene;
use crate::shape::Shape;
use crate::size::{BAR, SPLIT};
use crate::span::{Span, place};
use std::alloc::AllocError;

/// Draws a level line, where it has a length.
fn draw_line(left: u32, right: u32, at: u32, shapes: &mut Vec<Shape>) -> Result<(), AllocError>
    ensures { OnOk result (shapes.new.items ≡ shapes.old.items ++ line left right at) }
{
    if left < right {
        shapes.push(Shape::Line(left, right, at))?;
    }
    Ok(())
}

/// Draws a part that is so large in a span, with all that it holds. It walks the part once.
#[cycle(placing)]
pub(crate) fn draw(scene: &Scene, span: Span, shapes: &mut Vec<Shape>) -> Result<(), AllocError>
    requires measured { IsMeasured scene.now }
    requires room { HasRoom (sketch_of scene.now) span }
    ensures { OnOk result (shapes.new.items ≡ shapes.old.items ++ shapes_in (sketch_of scene.now) span) }
{
    let size = scene.size();
    match scene {
        Scene::Nop => draw_line(span.left, span.right, span.axis, shapes),
        Scene::Leaf(leaf, _) => {
            let left = span.start();
            let leaf_box = Shape::Leaf(*leaf, place(left, size.width, span.axis, size.half));
            draw_line(span.left, left, span.axis, shapes)?;
            shapes.push(leaf_box)?;
            draw_line(left + size.width, span.right, span.axis, shapes)
        }
        Scene::Serial(_, one, other) => {
            let width = one.size().width;
            draw(one, span.left_part(width), shapes)?;
            draw(other, span.right_part(width), shapes)
        }
        Scene::Forked(fork, _, one, other) => {
            if !fork.barred {
                return draw_sides(one, other, span, shapes);
            }
            let left = span.start();
            let inner = one.size().width.max(other.size().width);
            let between = span.between_bars(inner);
            let first = place(left, BAR, span.axis, size.half);
            let last = place(between.right, BAR, span.axis, size.half);
            draw_line(span.left, left, span.axis, shapes)?;
            shapes.push(Shape::Bar(fork.sides, first))?;
            draw_sides(one, other, between, shapes)?;
            shapes.push(Shape::Bar(fork.sides, last))?;
            draw_line(left + size.width, span.right, span.axis, shapes)
        }
        Scene::Framed(frame, _, part) => {
            let left = span.start();
            let edge = Shape::Frame(*frame, place(left, size.width, span.axis, size.half));
            draw_line(span.left, left, span.axis, shapes)?;
            shapes.push(edge)?;
            draw(part, span.in_frame(size.width), shapes)?;
            draw_line(left + size.width, span.right, span.axis, shapes)
        }
    }
}

/// Draws one part above another.
#[cycle(placing)]
fn draw_sides(
    above: &Scene,
    below: &Scene,
    span: Span,
    shapes: &mut Vec<Shape>,
) -> Result<(), AllocError>
    requires above { IsMeasured above.now }
    requires below { IsMeasured below.now }
    requires room_above { HasRoom (sketch_of above.now) (upper (half (sketch_of below.now)) span) }
    requires room_below { HasRoom (sketch_of below.now) (lower (half (sketch_of above.now)) span) }
    requires axis { SPLIT + half (sketch_of below.now) ≤ span.axis }
    ensures { OnOk result (shapes.new.items ≡ shapes.old.items ++
        (shapes_in (sketch_of above.now) (upper (half (sketch_of below.now)) span) ++ shapes_in (sketch_of below.now) (lower (half (sketch_of above.now)) span))) }
{
    let up = below.size().half;
    let down = above.size().half;
    draw(above, span.above(up), shapes)?;
    draw(below, span.below(down), shapes)
}
