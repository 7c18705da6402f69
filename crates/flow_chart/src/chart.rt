ghost use Rattle.std.specs.Prelude.{◌≡◌, ◌++◌, ◌+◌, None, IfOk, OnOk};
ghost use Rattle.flow_view.specs.Sketch.{sketch_of, row, forked, framed};
ghost use Rattle.flow_draw.specs.declared.format.Format.TheVariants.{Mermaid, Dot};
ghost use Rattle.flow_chart.specs.declared.lines.Node.TheVariants.{Leaf, Part};
ghost use Rattle.flow_chart.specs.Lines.{point_text, leaf_text};
ghost use Rattle.flow_draw.specs.Lookup.{text_at, mark_at};
ghost use Rattle.flow_chart.specs.Chart.{has_bars, host, first_side, hung_text, own_bars, bars_ends, ends_at, ends_of, scene_text, note_text, note_lines, notes_text, chart_text};

use crate::lines::{
    Node, push_bars, push_edge, push_frame_head, push_leaf, push_orders, push_point,
};
use crate::title::{push_head, title_foot};
use crate::words::{foot_words, frame_foot, notes_break, notes_close, notes_open};
use flow_draw::{Format, Piece, below, frame_caption, mark_at, push_pieces, text_at};
use flow_facts::Name;
use flow_view::{Arrow, Fork, Frame, Labels, Mark, Scene};
use std::alloc::{AllocError, Global};

/// Where a part of a chart begins and ends, and the number of the next node.
#[derive(Clone, Copy)]
pub(crate) struct Ends {
    pub(crate) from: Node,
    pub(crate) to: Node,
    pub(crate) next: u64,
}

/// Prints a picture's parts as a flowchart of Mermaid, under a title where that is not empty.
pub fn print_mermaid(
    alloc: Global,
    title: &[u8],
    scene: &Scene,
    arrows: &[Arrow],
    labels: &Labels,
    marks: &[Mark],
    rules: &[Name],
) -> Result<Vec<u8>, AllocError>
    ensures { IfOk result (λ text. text.items ≡ chart_text Mermaid title.now (sketch_of scene.now) arrows.now labels.now marks.now rules.now) }
{
    print_chart(
        alloc,
        Format::Mermaid,
        title,
        scene,
        arrows,
        labels,
        marks,
        rules,
    )
}

/// Prints a picture's parts as a graph of Graphviz, under a title where that is not empty.
pub fn print_dot(
    alloc: Global,
    title: &[u8],
    scene: &Scene,
    arrows: &[Arrow],
    labels: &Labels,
    marks: &[Mark],
    rules: &[Name],
) -> Result<Vec<u8>, AllocError>
    ensures { IfOk result (λ text. text.items ≡ chart_text Dot title.now (sketch_of scene.now) arrows.now labels.now marks.now rules.now) }
{
    print_chart(
        alloc,
        Format::Dot,
        title,
        scene,
        arrows,
        labels,
        marks,
        rules,
    )
}

fn print_chart(
    alloc: Global,
    format: Format,
    title: &[u8],
    scene: &Scene,
    arrows: &[Arrow],
    labels: &Labels,
    marks: &[Mark],
    rules: &[Name],
) -> Result<Vec<u8>, AllocError>
    ensures { IfOk result (λ text. text.items ≡ chart_text format title.now (sketch_of scene.now) arrows.now labels.now marks.now rules.now) }
{
    let mut text = Vec::new(alloc);
    push_head(&mut text, format, title)?;
    let _ends = push_scene(&mut text, format, labels, marks, None, 0, scene)?;
    push_orders(&mut text, format, arrows)?;
    text.extend_from_slice(title_foot(format, title))?;
    push_notes(&mut text, format, rules)?;
    text.extend_from_slice(foot_words(format))?;
    Ok(text)
}

/// Adds the parts of a scene. Where it is a side, it hangs between the bars of that number and the next. A goal may have thousands of levels, so
/// each kind of part is a call of its own, which keeps little on the stack.
#[cycle(charting)]
#[inline(never)]
fn push_scene(
    text: &mut Vec<u8>,
    format: Format,
    labels: &Labels,
    marks: &[Mark],
    hung: Option<u64>,
    number: u64,
    scene: &Scene,
) -> Result<Ends, AllocError>
    ensures text { OnOk result (text.new.items ≡ text.old.items ++ scene_text format labels.now marks.now hung number (sketch_of scene.now)) }
    ensures ends { IfOk result (λ ends. ends ≡ ends_of hung number (sketch_of scene.now)) }
{
    match scene {
        Scene::Nop => push_gap(text, format, hung, number),
        Scene::Leaf(leaf, _) => push_box(text, format, labels, marks, hung, number, *leaf),
        Scene::Serial(_, left, right) => {
            push_row(text, format, labels, marks, hung, number, left, right)
        }
        Scene::Forked(fork, _, above, under) => push_fork(
            text, format, labels, marks, hung, number, *fork, above, under,
        ),
        Scene::Framed(frame, _, part) => {
            push_framed(text, format, labels, marks, hung, number, *frame, part)
        }
    }
}

/// Adds a `nop`, as a point.
#[inline(never)]
fn push_gap(
    text: &mut Vec<u8>,
    format: Format,
    hung: Option<u64>,
    number: u64,
) -> Result<Ends, AllocError>
    ensures text { OnOk result (text.new.items ≡ text.old.items ++ point_text format number ++ hung_text format hung (Part number) (Part number)) }
    ensures ends { IfOk result (λ ends. ends ≡ ends_at (Part number) (Part number) (number + 1)) }
{
    push_point(text, format, number)?;
    let next = below(number, 1)?;
    hang(
        text,
        format,
        hung,
        Node::Part(number),
        Node::Part(number),
        next,
    )
}

/// Adds a leaf.
#[inline(never)]
fn push_box(
    text: &mut Vec<u8>,
    format: Format,
    labels: &Labels,
    marks: &[Mark],
    hung: Option<u64>,
    number: u64,
    leaf: u32,
) -> Result<Ends, AllocError>
    ensures text { OnOk result (text.new.items ≡ text.old.items ++ leaf_text format leaf (text_at labels.now.boxes.items leaf) (mark_at marks.now leaf)
        ++ hung_text format hung (Leaf leaf) (Leaf leaf)) }
    ensures ends { IfOk result (λ ends. ends ≡ ends_at (Leaf leaf) (Leaf leaf) number) }
{
    let label = text_at(&labels.boxes, leaf as usize);
    push_leaf(text, format, leaf, label, mark_at(marks, leaf))?;
    hang(
        text,
        format,
        hung,
        Node::Leaf(leaf),
        Node::Leaf(leaf),
        number,
    )
}

/// Adds two parts, one after the other.
#[cycle(charting)]
#[inline(never)]
fn push_row(
    text: &mut Vec<u8>,
    format: Format,
    labels: &Labels,
    marks: &[Mark],
    hung: Option<u64>,
    number: u64,
    left: &Scene,
    right: &Scene,
) -> Result<Ends, AllocError>
    ensures text { OnOk result (text.new.items ≡ text.old.items ++ scene_text format labels.now marks.now hung number (row (sketch_of left.now) (sketch_of right.now))) }
    ensures ends { IfOk result (λ ends. ends ≡ ends_of hung number (row (sketch_of left.now) (sketch_of right.now))) }
{
    let first = push_scene(text, format, labels, marks, None, number, left)?;
    let second = push_scene(text, format, labels, marks, None, first.next, right)?;
    push_edge(text, format, first.to, second.from)?;
    hang(text, format, hung, first.from, second.to, second.next)
}

/// Adds a fork with its sides.
#[cycle(charting)]
#[inline(never)]
fn push_fork(
    text: &mut Vec<u8>,
    format: Format,
    labels: &Labels,
    marks: &[Mark],
    hung: Option<u64>,
    number: u64,
    fork: Fork,
    above: &Scene,
    under: &Scene,
) -> Result<Ends, AllocError>
    ensures text { OnOk result (text.new.items ≡ text.old.items ++ scene_text format labels.now marks.now hung number (forked fork (sketch_of above.now) (sketch_of under.now))) }
    ensures ends { IfOk result (λ ends. ends ≡ ends_of hung number (forked fork (sketch_of above.now) (sketch_of under.now))) }
{
    push_own_bars(text, format, fork, hung, number)?;
    let bars = host(fork, hung, number);
    let start = first_side(fork, hung, number)?;
    let upper = push_scene(text, format, labels, marks, Some(bars), start, above)?;
    let lower = push_scene(text, format, labels, marks, Some(bars), upper.next, under)?;
    between(bars, lower.next)
}

/// Adds a frame and what it holds.
#[cycle(charting)]
#[inline(never)]
fn push_framed(
    text: &mut Vec<u8>,
    format: Format,
    labels: &Labels,
    marks: &[Mark],
    hung: Option<u64>,
    number: u64,
    frame: Frame,
    part: &Scene,
) -> Result<Ends, AllocError>
    ensures text { OnOk result (text.new.items ≡ text.old.items ++ scene_text format labels.now marks.now hung number (framed frame (sketch_of part.now))) }
    ensures ends { IfOk result (λ ends. ends ≡ ends_of hung number (framed frame (sketch_of part.now))) }
{
    push_frame_head(text, format, number, frame_caption(labels, frame))?;
    let ends = push_scene(text, format, labels, marks, None, below(number, 1)?, part)?;
    text.extend_from_slice(frame_foot(format))?;
    hang(text, format, hung, ends.from, ends.to, ends.next)
}

/// The ends at two bars.
#[inline(never)]
fn between(bars: u64, next: u64) -> Result<Ends, AllocError>
    ensures { IfOk result (λ ends. ends ≡ bars_ends bars next) }
{
    Ok(Ends {
        from: Node::Part(bars),
        to: Node::Part(below(bars, 1)?),
        next,
    })
}

/// Adds the edges that lead from a bar to a side and on to the other bar, where it is a side.
#[inline(never)]
fn hang(
    text: &mut Vec<u8>,
    format: Format,
    hung: Option<u64>,
    from: Node,
    to: Node,
    next: u64,
) -> Result<Ends, AllocError>
    ensures text { OnOk result (text.new.items ≡ text.old.items ++ hung_text format hung from to) }
    ensures ends { IfOk result (λ ends. ends ≡ ends_at from to next) }
{
    if let Some(bars) = hung {
        push_edge(text, format, Node::Part(bars), from)?;
        push_edge(text, format, to, Node::Part(below(bars, 1)?))?;
    }
    Ok(Ends { from, to, next })
}

/// Whether a fork has bars of its own. One that is no side has.
fn has_bars(fork: Fork, hung: Option<u64>) -> bool
    ensures { result ≡ has_bars fork hung }
{
    match hung {
        Some(_) => fork.barred,
        None => true,
    }
}

/// The number of the first of the two bars between which the sides of a fork hang.
fn host(fork: Fork, hung: Option<u64>, number: u64) -> u64
    ensures { result ≡ host fork hung number }
{
    match hung {
        Some(bars) => { if fork.barred { number } else { bars } }
        None => number,
    }
}

/// The number of the first node of a fork's sides.
#[inline(never)]
fn first_side(fork: Fork, hung: Option<u64>, number: u64) -> Result<u64, AllocError>
    ensures { IfOk result (λ first. first ≡ first_side fork hung number) }
{
    if has_bars(fork, hung) {
        below(number, 2)
    } else {
        Ok(number)
    }
}

/// Adds the bars of a fork that has some of its own.
#[inline(never)]
fn push_own_bars(
    text: &mut Vec<u8>,
    format: Format,
    fork: Fork,
    hung: Option<u64>,
    number: u64,
) -> Result<(), AllocError>
    ensures { OnOk result (text.new.items ≡ text.old.items ++ own_bars format fork hung number) }
{
    if !has_bars(fork, hung) {
        return Ok(());
    }
    push_bars(text, format, fork.sides, number)?;
    let _ends = hang(
        text,
        format,
        hung,
        Node::Part(number),
        Node::Part(below(number, 1)?),
        number,
    )?;
    Ok(())
}

/// Adds the constraints, each with its number, where there are any.
fn push_notes(text: &mut Vec<u8>, format: Format, rules: &[Name]) -> Result<(), AllocError>
    ensures { OnOk result (text.new.items ≡ text.old.items ++ notes_text format rules.now) }
{
    if rules.is_empty() {
        return Ok(());
    }
    text.extend_from_slice(notes_open(format))?;
    push_note_lines(text, format, rules)?;
    text.extend_from_slice(notes_close(format))
}

fn push_note_lines(text: &mut Vec<u8>, format: Format, rules: &[Name]) -> Result<(), AllocError>
    ensures { OnOk result (text.new.items ≡ text.old.items ++ note_lines format 0 rules.now) }
{
    for (number, rule) in rules.iter().enumerate() {
        push_note(text, format, number as u64, rule.bytes())?;
    }
    Ok(())
}

#[tactic(auto, unfolding(crate::specs::Chart::note_text))]
fn push_note(text: &mut Vec<u8>, format: Format, number: u64, rule: &[u8]) -> Result<(), AllocError>
    ensures { OnOk result (text.new.items ≡ text.old.items ++ note_text format number rule.now) }
{
    push_pieces(
        text,
        &[
            Piece::Number(number),
            Piece::Words(b" "),
            Piece::Escaped(format, rule),
            Piece::Words(notes_break(format)),
        ],
    )
}
