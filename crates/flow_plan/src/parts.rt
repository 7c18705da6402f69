ghost use Rattle.std.specs.Prelude.{◌≡◌, ◌<◌, ◌≤◌, ◌*◌, ℕ, List, [], length, All, IfOk};
ghost use Rattle.flow_model.specs.Lists.{Each};
ghost use Rattle.flow_model.specs.Process.{leaves};
ghost use Rattle.flow_model.specs.Ready.{DirectlyBefore};
ghost use Rattle.flow_plan.specs.Rows.{AreRowsOf};
ghost use Rattle.flow_plan.specs.declared.span.Span.{Span};
ghost use Rattle.flow_plan.specs.Span.{AddsSpans};
ghost use Rattle.flow_plan.specs.Parts.{ArePartsFor, ArePartsOf};

use crate::outline::Outline;
use crate::part_row::{PartRow, Reach};
use crate::span::Span;
use flow_goal::Choiceless;
use leaf_rows::LeafSet;
use std::alloc::{AllocError, Global};

/// The spans of the isolated parts of the goal with two or more leaves, inner parts first.
#[tactic(auto, using(crate::proofs::MarkLemmas::begun_spans))]
fn spans_of(alloc: Global, goal: &Choiceless) -> Result<Vec<Span>, AllocError>
    ensures { IfOk result (λ spans. AddsSpans goal.now.process (leaves goal.now.process) 0 [] spans.items) }
{
    let mut outline = Outline {
        place: 0,
        opens: Vec::new(alloc),
        spans: Vec::new(alloc),
    };
    let leaves = goal.leaves();
    for node in goal.nodes() {
        // a part that begins after the last leaf has none
        if outline.place == leaves.len() && outline.opens.is_empty() {
            return Ok(outline.spans);
        }
        outline.draw(node)?;
    }
    Ok(outline.spans)
}

/// The rows of the parts at those places.
fn rows_of_spans<const W: usize>(
    alloc: Global,
    spans: &[Span],
    leaves: &[u32],
    before: &[LeafSet<W>],
) -> Result<Vec<PartRow<W>>, AllocError>
    requires wide { W ≤ 64 }
    requires small { All (λ n. n < 64 * W) leaves.now }
    requires one_each { length before.now ≡ length leaves.now }
    requires within { All (λ (s : Span). s.first ≤ s.end × s.end ≤ length leaves.now) spans.now }
    ensures { IfOk result (λ parts. ArePartsFor leaves.now before.now spans.now parts.items) }
{
    let mut parts = Vec::with_capacity(alloc, spans.len())?;
    let mut reach = Reach::at(0);
    for span in spans {
        reach = reach.of(*span, leaves, before);
        parts.push(reach.row())?;
    }
    Ok(parts)
}

/// The isolated parts of the goal with two or more leaves, once for each set of leaves.
#[tactic(auto, using(crate::proofs::PartLemmas::spans_long, crate::proofs::PartLemmas::spans_fit))]
pub(crate) fn part_rows<const W: usize>(
    alloc: Global,
    goal: &Choiceless,
    before: &[LeafSet<W>],
) -> Result<Vec<PartRow<W>>, AllocError>
    requires wide { W ≤ 64 }
    requires small { Each (λ n. n < 64 * W) goal.now.leaves }
    requires one_each { length before.now ≡ length goal.now.leaves }
    ensures { IfOk result (λ parts. (pairs : List (ℕ × ℕ)) →
        AreRowsOf (DirectlyBefore goal.now.process pairs) goal.now.leaves before.now →
        ArePartsOf goal.now.process pairs parts.items) }
{
    let leaves = goal.leaves();
    let spans = spans_of(alloc, goal)?;
    let parts = rows_of_spans(alloc, &spans, leaves, before)?;
    Ok(parts)
}
