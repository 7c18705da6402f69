ghost use Rattle.std.specs.Prelude.{◌≡◌, None, Some, IfOk, IfErr};
ghost use Rattle.flow_form.specs.Form.{shape_of};
ghost use Rattle.flow_form.specs.Script.{said};
ghost use Rattle.flow_goal.specs.Goal.{process_of};
ghost use Rattle.flow_view.specs.Drawn.{body_of, drawing, drawn, fork, inside, left_of, opened, operator_of, right_of, under};
ghost use Rattle.flow_view.specs.Flows.{goals_in, names_in, sources_of};
ghost use Rattle.flow_view.specs.Follow.{written_of};
ghost use Rattle.flow_view.specs.Sizes.{IsMeasured, IsRefusal};
ghost use Rattle.flow_view.specs.Sketch.{forked, framed, process_in, row, sketch_of};

use crate::flows::Flows;
use crate::follow::Follow;
use crate::labels::{Labels, letters};
use crate::measure::{forked, framed, leaf, row};
use crate::refusal::ViewRefusal;
use crate::scene::{Fork, Frame, Scene, Sides};
use flow_form::Script;
use flow_goal::Goal;
use flow_model::Operator;
use flow_workflow::Workflow;
use std::alloc::Global;

/// The fork of those sides. One that is a side of the same kind has no bars.
fn fork(within: Option<Sides>, sides: Sides) -> Fork
    ensures { result ≡ fork within sides }
{
    let barred = !matches!(
        (within, sides),
        (Some(Sides::Beside), Sides::Beside) | (Some(Sides::Either), Sides::Either)
    );
    Fork { sides, barred }
}

/// The operator that joins the sides.
fn operator_of(sides: Sides) -> Operator
    ensures { result ≡ operator_of sides }
{
    match sides {
        Sides::Beside => Operator::Beside,
        Sides::Either => Operator::Either,
    }
}

/// The part in the frame of that sub-workflow.
#[inline(never)]
fn under(alloc: Global, labels: &Labels, flow: usize, part: Scene) -> Result<Scene, ViewRefusal>
    requires { IsMeasured part }
    ensures measured { IfOk result IsMeasured }
    ensures sketch { IfOk result (λ scene. sketch_of scene ≡ under labels.now.captions.items (Some flow) (sketch_of part)) }
    ensures refused { IfErr result (IsRefusal (under labels.now.captions.items (Some flow) (sketch_of part))) }
{
    let Ok(letters) = u32::try_from(letters(&labels.captions, flow)) else {
        drop(part);
        return Err(ViewRefusal::TooLarge);
    };
    framed(alloc, Frame::Called(flow, letters), part)
}

// Goals are thousands of levels deep: what follows is to keep little on the stack. So each kind of goal has a call of its own, which is not
// to be inlined. (Rattle's own compiler inlines what is called at one place all the same.)

/// What is drawn of a goal, beside which that is written.
#[cycle(drawing)]
#[inline(never)]
fn drawn<'a>(
    alloc: Global,
    flows: &Flows<'a>,
    labels: &Labels,
    goal: &Goal,
    within: Option<Sides>,
    follow: Follow<'a>,
) -> Result<Scene, ViewRefusal>
    ensures measured { IfOk result IsMeasured }
    ensures sketch { IfOk result (λ scene. sketch_of scene ≡ drawn (sources_of flows.now labels.now) (process_of goal.now) within (written_of follow.entry)) }
    ensures refused { IfErr result (IsRefusal (drawn (sources_of flows.now labels.now) (process_of goal.now) within (written_of follow.entry))) }
{
    match flows.called(follow) {
        None => inside(alloc, flows, labels, goal, within, flows.opened(follow)),
        Some(flow) => drawn_call(alloc, flows, labels, goal, flow, follow),
    }
}

/// The same where the sub-workflow of that number is written there: it is framed.
#[cycle(drawing)]
#[inline(never)]
fn drawn_call<'a>(
    alloc: Global,
    flows: &Flows<'a>,
    labels: &Labels,
    goal: &Goal,
    flow: usize,
    follow: Follow<'a>,
) -> Result<Scene, ViewRefusal>
    ensures measured { IfOk result IsMeasured }
    ensures sketch { IfOk result (λ scene. sketch_of scene ≡ under labels.now.captions.items (Some flow) (inside (sources_of flows.now labels.now) (process_of goal.now) None (opened (names_in flows.now) (goals_in flows.now) (written_of follow.entry)))) }
    ensures refused { IfErr result (IsRefusal (under labels.now.captions.items (Some flow) (inside (sources_of flows.now labels.now) (process_of goal.now) None (opened (names_in flows.now) (goals_in flows.now) (written_of follow.entry))))) }
{
    let part = inside(alloc, flows, labels, goal, None, flows.opened(follow))?;
    under(alloc, labels, flow, part)
}

/// What is drawn of a goal, without the frame of the whole.
#[cycle(drawing)]
#[inline(never)]
fn inside<'a>(
    alloc: Global,
    flows: &Flows<'a>,
    labels: &Labels,
    goal: &Goal,
    within: Option<Sides>,
    follow: Follow<'a>,
) -> Result<Scene, ViewRefusal>
    ensures measured { IfOk result IsMeasured }
    ensures sketch { IfOk result (λ scene. sketch_of scene ≡ inside (sources_of flows.now labels.now) (process_of goal.now) within (written_of follow.entry)) }
    ensures refused { IfErr result (IsRefusal (inside (sources_of flows.now labels.now) (process_of goal.now) within (written_of follow.entry))) }
{
    match goal {
        Goal::Nop => Ok(Scene::Nop),
        Goal::Leaf(n) => leaf(*n, letters(&labels.boxes, *n as usize)),
        Goal::Serial(left, right) => drawn_row(alloc, flows, labels, left, right, follow),
        Goal::Beside(left, right) => {
            let fork = fork(within, Sides::Beside);
            drawn_fork(alloc, flows, labels, left, right, fork, follow)
        }
        Goal::Either(left, right) => {
            let fork = fork(within, Sides::Either);
            drawn_fork(alloc, flows, labels, left, right, fork, follow)
        }
        Goal::Iso(part) => drawn_isolation(alloc, flows, labels, part, follow),
    }
}

/// What is drawn of two goals, one after the other.
#[cycle(drawing)]
#[inline(never)]
fn drawn_row<'a>(
    alloc: Global,
    flows: &Flows<'a>,
    labels: &Labels,
    left: &Goal,
    right: &Goal,
    follow: Follow<'a>,
) -> Result<Scene, ViewRefusal>
    ensures measured { IfOk result IsMeasured }
    ensures sketch { IfOk result (λ scene. sketch_of scene ≡ row (drawn (sources_of flows.now labels.now) (process_of left.now) None (left_of Operator.Serial (written_of follow.entry))) (drawn (sources_of flows.now labels.now) (process_of right.now) None (right_of Operator.Serial (written_of follow.entry)))) }
    ensures refused { IfErr result (IsRefusal (row (drawn (sources_of flows.now labels.now) (process_of left.now) None (left_of Operator.Serial (written_of follow.entry))) (drawn (sources_of flows.now labels.now) (process_of right.now) None (right_of Operator.Serial (written_of follow.entry))))) }
{
    let side = follow.left(Operator::Serial);
    let left = drawn(alloc, flows, labels, left, None, side)?;
    match drawn(
        alloc,
        flows,
        labels,
        right,
        None,
        follow.right(Operator::Serial),
    ) {
        Ok(right) => row(alloc, left, right),
        Err(refused) => {
            drop(left);
            Err(refused)
        }
    }
}

/// What is drawn of two goals that are the sides of a fork.
#[cycle(drawing)]
#[inline(never)]
fn drawn_fork<'a>(
    alloc: Global,
    flows: &Flows<'a>,
    labels: &Labels,
    left: &Goal,
    right: &Goal,
    fork: Fork,
    follow: Follow<'a>,
) -> Result<Scene, ViewRefusal>
    ensures measured { IfOk result IsMeasured }
    ensures sketch { IfOk result (λ scene. sketch_of scene ≡ forked fork (drawn (sources_of flows.now labels.now) (process_of left.now) (Some fork.sides) (left_of (operator_of fork.sides) (written_of follow.entry))) (drawn (sources_of flows.now labels.now) (process_of right.now) (Some fork.sides) (right_of (operator_of fork.sides) (written_of follow.entry)))) }
    ensures refused { IfErr result (IsRefusal (forked fork (drawn (sources_of flows.now labels.now) (process_of left.now) (Some fork.sides) (left_of (operator_of fork.sides) (written_of follow.entry))) (drawn (sources_of flows.now labels.now) (process_of right.now) (Some fork.sides) (right_of (operator_of fork.sides) (written_of follow.entry))))) }
{
    let operator = operator_of(fork.sides);
    let within = Some(fork.sides);
    let side = follow.left(operator);
    let left = drawn(alloc, flows, labels, left, within, side)?;
    match drawn(alloc, flows, labels, right, within, follow.right(operator)) {
        Ok(right) => forked(alloc, fork, left, right),
        Err(refused) => {
            drop(left);
            Err(refused)
        }
    }
}

/// What is drawn of the isolation of a goal.
#[cycle(drawing)]
#[inline(never)]
fn drawn_isolation<'a>(
    alloc: Global,
    flows: &Flows<'a>,
    labels: &Labels,
    part: &Goal,
    follow: Follow<'a>,
) -> Result<Scene, ViewRefusal>
    ensures measured { IfOk result IsMeasured }
    ensures sketch { IfOk result (λ scene. sketch_of scene ≡ framed Frame.Iso (drawn (sources_of flows.now labels.now) (process_of part.now) None (body_of (written_of follow.entry)))) }
    ensures refused { IfErr result (IsRefusal (framed Frame.Iso (drawn (sources_of flows.now labels.now) (process_of part.now) None (body_of (written_of follow.entry))))) }
{
    let part = drawn(alloc, flows, labels, part, None, follow.body())?;
    framed(alloc, Frame::Iso, part)
}

/// The parts of a picture of a workflow, which was made of this script, with their sizes: its goal, where each sub-workflow that was put in is
/// framed. It walks the goal once.
pub fn scene_of(
    alloc: Global,
    script: &Script,
    workflow: &Workflow,
    labels: &Labels,
) -> Result<Scene, ViewRefusal>
    ensures goal { IfOk result (λ scene. process_in (sketch_of scene) ≡ workflow.now.tree.process) }
    ensures sketch { IfOk result (λ scene. sketch_of scene ≡ drawing (said script.now) labels.now workflow.now.tree.process) }
    ensures measured { IfOk result IsMeasured }
    ensures refused { IfErr result (IsRefusal (drawing (said script.now) labels.now workflow.now.tree.process)) }
{
    let flows = Flows::new(alloc, &script.decls)?;
    let goal = workflow.tree().goal();
    drawn(
        alloc,
        &flows,
        labels,
        goal,
        None,
        Follow::Whole(&script.goal),
    )
}
