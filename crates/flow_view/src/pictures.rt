ghost use Rattle.std.specs.Prelude.{◌≡◌, ℕ, IfOk, length, take, nat_lt};
ghost use Rattle.std.specs.List.{filter_map};
ghost use Rattle.flow_model.specs.Lists.{Each};
ghost use Rattle.flow_model.specs.Process.{leaves};
ghost use Rattle.flow_model.specs.Ready.{InSequence};
ghost use Rattle.flow_view.specs.Arrows.{arrows_of};
ghost use Rattle.flow_view.specs.Overlap.{DoNotOverlap, EndsLeftOf, ShapeLiesIn, canvas_place};
ghost use Rattle.flow_view.specs.Shapes.{boxed_leaf, shapes_of};
ghost use Rattle.flow_view.specs.Sizes.{IsMeasured, canvas_height, canvas_width};
ghost use Rattle.flow_view.specs.Sketch.{process_in, sketch_of};

use crate::arrows::arrows_of;
use crate::picture::Picture;
use crate::placing::draw;
use crate::scene::Scene;
use crate::shape::Shape;
use crate::size::{MARGIN, MOST_ARROWS};
use crate::span::Span;
use flow_workflow::Workflow;
use std::alloc::{AllocError, Global};

/// What is drawn of these parts.
fn placed(alloc: Global, scene: &Scene) -> Result<Vec<Shape>, AllocError>
    requires { IsMeasured scene.now }
    ensures { IfOk result (λ shapes. shapes.items ≡ shapes_of (sketch_of scene.now)) }
{
    let size = scene.size();
    let canvas = Span {
        lead: MARGIN,
        left: 0,
        right: size.width + 2 * MARGIN,
        axis: size.half + MARGIN,
    };
    let mut shapes = Vec::new(alloc);
    draw(scene, canvas, &mut shapes)?;
    Ok(shapes)
}

/// The picture of a workflow whose goal's parts are these. It walks the parts once.
pub fn picture_of(alloc: Global, scene: &Scene, workflow: &Workflow) -> Result<Picture, AllocError>
    requires measured { IsMeasured scene.now }
    requires goal { process_in (sketch_of scene.now) ≡ workflow.now.tree.process }
    ensures width { IfOk result (λ picture. picture.width ≡ canvas_width (sketch_of scene.now)) }
    ensures height { IfOk result (λ picture. picture.height ≡ canvas_height (sketch_of scene.now)) }
    ensures shapes { IfOk result (λ picture. picture.shapes.items ≡ shapes_of (sketch_of scene.now)) }

    // what these shapes are
    ensures boxes { IfOk result (λ picture. filter_map boxed_leaf picture.shapes.items ≡ leaves workflow.now.tree.process) }
    ensures within { IfOk result (λ picture. Each (ShapeLiesIn (canvas_place picture.width picture.height)) picture.shapes.items) }
    ensures clear { IfOk result (λ picture. DoNotOverlap picture.shapes.items) }
    ensures in_turn { IfOk result (λ picture. (x y : ℕ) → InSequence workflow.now.tree.process x y → EndsLeftOf picture.shapes.items x y) }

    ensures arrows { IfOk result (λ picture. picture.arrows.items ≡ take MOST_ARROWS (arrows_of workflow.now)) }
    ensures left_out { IfOk result (λ picture. picture.left_out ≡ nat_lt MOST_ARROWS (length (arrows_of workflow.now))) }
{
    // what the type keeps of its leaves
    let tree = workflow.tree();
    let _leaves = tree.leaves();
    let arrows = arrows_of(alloc, workflow)?;
    let shapes = match placed(alloc, scene) {
        Ok(shapes) => shapes,
        Err(refused) => {
            drop(arrows);
            return Err(refused);
        }
    };
    let size = scene.size();
    Ok(Picture {
        width: size.width + 2 * MARGIN,
        height: 2 * (size.half + MARGIN),
        shapes,
        arrows: arrows.list,
        left_out: arrows.left_out,
    })
}
