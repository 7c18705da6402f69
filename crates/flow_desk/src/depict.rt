ghost use Rattle.std.specs.Prelude.{◌≡◌, map, IfOk, IfErr};
ghost use Rattle.flow_form.specs.RuleForm.{rule_shape_of};
ghost use Rattle.flow_form.specs.Script.{said};
ghost use Rattle.flow_view.specs.Drawn.{drawing};
ghost use Rattle.flow_view.specs.Sizes.{IsMeasured};
ghost use Rattle.flow_view.specs.Sketch.{process_in, sketch_of};
ghost use Rattle.flow_view.specs.Texts.{box_texts};
ghost use Rattle.flow_draw.specs.Notes.{note_of};
ghost use Rattle.flow_desk.specs.Noted.{noted_texts};
ghost use Rattle.flow_desk.specs.Viewing.{view_stop};
ghost use Rattle.flow_desk.specs.Desk.{AreLabels, IsPrinted, IsDepicted, IsNotDepicted, IsNotPlaced, IsTextIn};

use crate::noted::noted_boxes;
use crate::stop::DeskStop;
use flow_chart::{print_dot, print_mermaid};
use flow_draw::{Format, Sheet, notes_of};
use flow_facts::Name;
use flow_form::{RuleForm, Script};
use flow_svg::print_svg;
use flow_view::{Labels, Mark, Picture, Scene, ViewRefusal, labels_of, picture_of, scene_of};
use flow_workflow::Workflow;
use std::alloc::{AllocError, Global};

/// What is drawn of a workflow, with what is shown of its names.
#[derive(Drop)]
struct View {
    labels: Labels,
    scene: Scene,
}

/// Why a workflow has no picture, as what stops the desk.
fn view_stop(refusal: ViewRefusal) -> DeskStop
    ensures { result ≡ view_stop refusal }
{
    match refusal {
        ViewRefusal::TooLarge => DeskStop::TooLarge,
        ViewRefusal::NoMemory => DeskStop::NoMemory,
    }
}

/// The parts of the picture of a workflow that a script says, with what its boxes and frames show.
fn placed(
    alloc: Global,
    script: &Script,
    workflow: &Workflow,
    labels: Labels,
) -> Result<View, DeskStop>
    ensures labels { IfOk result (λ view. view.labels ≡ labels) }
    ensures sketch { IfOk result (λ view. sketch_of view.scene ≡ drawing (said script.now) view.labels workflow.now.tree.process) }
    ensures goal { IfOk result (λ view. process_in (sketch_of view.scene) ≡ workflow.now.tree.process) }
    ensures measured { IfOk result (λ view. IsMeasured view.scene) }
    ensures stop { IfErr result (IsNotPlaced (said script.now) labels workflow.now) }
{
    match scene_of(alloc, script, workflow, &labels) {
        Ok(scene) => Ok(View { labels, scene }),
        Err(refusal) => {
            drop(labels);
            Err(view_stop(refusal))
        }
    }
}

/// What is shown of a workflow, with the notes behind the texts of boxes.
fn shown_of(
    alloc: Global,
    script: &Script,
    workflow: &Workflow,
    notes: &[Name],
) -> Result<Labels, AllocError>
    ensures { IfOk result (AreLabels (said script.now) (noted_texts notes.now (box_texts workflow.now))) }
{
    let Labels { boxes, captions } = labels_of(alloc, script, workflow)?;
    match noted_boxes(alloc, &boxes, notes) {
        Ok(noted) => {
            drop(boxes);
            Ok(Labels {
                boxes: noted,
                captions,
            })
        }
        Err(refused) => {
            drop(boxes);
            drop(captions);
            Err(refused)
        }
    }
}

/// The parts of the picture of a workflow that a script says.
fn view_of(
    alloc: Global,
    script: &Script,
    workflow: &Workflow,
    notes: &[Name],
) -> Result<View, DeskStop>
    ensures labels { IfOk result (λ view. AreLabels (said script.now) (noted_texts notes.now (box_texts workflow.now)) view.labels) }
    ensures sketch { IfOk result (λ view. sketch_of view.scene ≡ drawing (said script.now) view.labels workflow.now.tree.process) }
    ensures goal { IfOk result (λ view. process_in (sketch_of view.scene) ≡ workflow.now.tree.process) }
    ensures measured { IfOk result (λ view. IsMeasured view.scene) }
    ensures stop { IfErr result (IsNotDepicted (said script.now) workflow.now (noted_texts notes.now (box_texts workflow.now))) }
{
    let labels = shown_of(alloc, script, workflow, notes)?;
    placed(alloc, script, workflow, labels)
}

/// The text of a picture as the sheet asks for it.
fn print_in(
    alloc: Global,
    sheet: &Sheet,
    view: &View,
    picture: &Picture,
    marks: &[Mark],
    rules: &[Name],
) -> Result<Vec<u8>, AllocError>
    ensures { IfOk result (λ text. IsTextIn sheet.now.form sheet.now.title sheet.now.fold (sketch_of view.now.scene) picture.now view.now.labels marks.now rules.now text.items) }
{
    let View { labels, scene } = view;
    let arrows = &picture.arrows;
    let title = sheet.title.bytes();
    match sheet.form {
        Format::Svg => print_svg(alloc, picture, labels, marks, rules, sheet),
        Format::Mermaid => print_mermaid(alloc, title, scene, arrows, labels, marks, rules),
        Format::Dot => print_dot(alloc, title, scene, arrows, labels, marks, rules),
    }
}

/// The text of the picture of a workflow whose parts are these.
fn print_view(
    alloc: Global,
    sheet: &Sheet,
    view: &View,
    workflow: &Workflow,
    marks: &[Mark],
    rules: &[Name],
) -> Result<Vec<u8>, AllocError>
    requires goal { process_in (sketch_of view.now.scene) ≡ workflow.now.tree.process }
    requires measured { IsMeasured view.now.scene }
    ensures { IfOk result (λ text. IsPrinted sheet.now (sketch_of view.now.scene) view.now.labels workflow.now marks.now rules.now text.items) }
{
    let picture = picture_of(alloc, &view.scene, workflow)?;
    let text = print_in(alloc, sheet, view, &picture, marks, rules);
    drop(picture);
    text
}

/// The text of the picture of a workflow that a script says, with a run's marks, and with the notes behind the texts of boxes.
pub(crate) fn depict(
    alloc: Global,
    script: Script,
    workflow: &Workflow,
    notes: &[Name],
    marks: &[Mark],
    sheet: &Sheet,
) -> Result<Vec<u8>, DeskStop>
    ensures text { IfOk result (λ text. IsDepicted sheet.now (said script) workflow.now (noted_texts notes.now (box_texts workflow.now)) marks.now text.items) }
    ensures stop { IfErr result (IsNotDepicted (said script) workflow.now (noted_texts notes.now (box_texts workflow.now))) }
{
    match view_of(alloc, &script, workflow, notes) {
        Ok(view) => {
            let Script { decls, goal, rules } = script;
            drop(decls);
            drop(goal);
            Ok(print_all(alloc, sheet, &view, workflow, marks, rules)?)
        }
        Err(stop) => {
            drop(script);
            Err(stop)
        }
    }
}

/// The text of a picture with its constraints.
fn print_all(
    alloc: Global,
    sheet: &Sheet,
    view: &View,
    workflow: &Workflow,
    marks: &[Mark],
    rules: Vec<RuleForm>,
) -> Result<Vec<u8>, AllocError>
    requires goal { process_in (sketch_of view.now.scene) ≡ workflow.now.tree.process }
    requires measured { IsMeasured view.now.scene }
    ensures { IfOk result (λ text. IsPrinted sheet.now (sketch_of view.now.scene) view.now.labels workflow.now marks.now (map (λ rule. note_of (rule_shape_of rule)) rules.items) text.items) }
{
    let texts = notes_of(alloc, rules)?;
    let text = print_view(alloc, sheet, view, workflow, marks, &texts);
    drop(texts);
    text
}
