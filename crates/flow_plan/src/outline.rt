ghost use Rattle.std.specs.Prelude.{◌≡◌, ◌<◌, ◌≤◌, ◌+◌, ◌^◌, [], OnOk};
ghost use Rattle.flow_goal.specs.declared.node.Node.TheVariants.{Close};
ghost use Rattle.flow_plan.specs.declared.span.Span.{Span};
ghost use Rattle.flow_plan.specs.Span.{AddsSpan};
ghost use Rattle.flow_plan.specs.SpanMarks.{Draws};

use crate::span::Span;
use flow_goal::Node;
use std::alloc::AllocError;

/// The spans of the first isolated parts of a goal that is read from left to right.
#[derive(Drop)]
pub(crate) struct Outline {
    /// The place of the next leaf.
    pub(crate) place: usize,
    /// The first places of the parts that have begun.
    pub(crate) opens: Vec<usize>,
    /// Inner parts first.
    pub(crate) spans: Vec<Span>,
}

/// Puts the span behind the others, where it has two places and is not the last of them.
///
/// Of parts with the same leaves nothing but parts with no leaf comes in between, so that the last span
/// alone may be one that comes again.
#[tactic(auto, using(crate::proofs::SpanLemmas::test_same, crate::proofs::SpanLemmas::adds_again))]
fn add_span(span: Span, spans: &mut Vec<Span>) -> Result<(), AllocError>
    ensures { OnOk result (AddsSpan span spans.old.items spans.new.items) }
{
    if span.end.saturating_sub(span.first) < 2 {
        return Ok(());
    }
    if let Some(last) = spans.last() {
        if *last == span {
            return Ok(());
        }
    }
    spans.push(span)?;
    Ok(())
}

impl Outline {
    /// A part ends: its span is one more.
    fn close(&mut self) -> Result<(), AllocError>
        ensures place { OnOk result (self.new.place ≡ self.old.place) }
        ensures drawn { OnOk result (Draws Close self.old self.new) }
    {
        if let Some(first) = self.opens.pop() {
            let end = self.place;
            add_span(Span { first, end }, &mut self.spans)?;
        }
        Ok(())
    }

    /// Reads one mark.
    pub(crate) fn draw(&mut self, node: &Node) -> Result<(), AllocError>
        requires { self.old.place + 1 < 2 ^ 64 }
        ensures place { OnOk result (self.new.place ≤ self.old.place + 1) }
        ensures drawn { OnOk result (Draws node.now self.old self.new) }
    {
        match node {
            Node::Leaf => self.place += 1,
            Node::Open => self.opens.push(self.place)?,
            Node::Close => self.close()?,
            _ => {}
        }
        Ok(())
    }
}
