ghost use Rattle.std.specs.Prelude.{◌≡◌, ◌+◌, ◌*◌, ◌≤◌, ◌<◌, ◌^◌};
ghost use Rattle.flow_view.specs.Shapes as shapes;

use crate::shape::Place;
use crate::size::{BAR, FORK, FRAME, GAP, SPLIT, Size};

/// Where a part is placed: from `left` leads a line of length `lead` to it, and from it a line to `right`.
#[derive(Clone, Copy)]
pub(crate) struct Span {
    pub(crate) lead: u32,
    pub(crate) left: u32,
    pub(crate) right: u32,
    pub(crate) axis: u32,
}

/// A place so large, that begins there, and has its axis there.
pub(crate) fn place(left: u32, width: u32, axis: u32, up: u32) -> Place
    requires right { left + width < 2 ^ 32 }
    requires top { up ≤ axis }
    requires bottom { axis + up < 2 ^ 32 }
    ensures { result ≡ shapes.place left width axis up }
{
    Place {
        left,
        top: axis - up,
        right: left + width,
        bottom: axis + up,
    }
}

impl Span {
    /// Where the part stands that the line leads to.
    pub(crate) fn start(self) -> u32
        requires { shapes.start self < 2 ^ 32 }
        ensures { result ≡ shapes.start self }
    {
        self.left + self.lead
    }

    /// The span of the left part of a row.
    pub(crate) fn left_part(self, width: u32) -> Span
        requires { shapes.start self + width < 2 ^ 32 }
        ensures { result ≡ shapes.left_span width self }
    {
        Span {
            right: self.left + self.lead + width,
            ..self
        }
    }

    /// The span of the right part, where the left one is so wide.
    pub(crate) fn right_part(self, width: u32) -> Span
        requires { shapes.start self + width < 2 ^ 32 }
        ensures { result ≡ shapes.right_span width self }
    {
        Span {
            lead: GAP,
            left: self.left + self.lead + width,
            ..self
        }
    }

    /// The span between the bars of a fork whose sides are so wide.
    pub(crate) fn between_bars(self, width: u32) -> Span
        requires { shapes.start self + BAR + (2 * FORK + width) < 2 ^ 32 }
        ensures { result ≡ shapes.between_bars width self }
    {
        let left = self.left + self.lead + BAR;
        Span {
            lead: FORK,
            left,
            right: left + (2 * FORK + width),
            ..self
        }
    }

    /// The span of a side above one that reaches so far up.
    pub(crate) fn above(self, half: u32) -> Span
        requires { SPLIT + half ≤ self.axis }
        ensures { result ≡ shapes.upper half self }
    {
        Span {
            axis: self.axis - (SPLIT + half),
            ..self
        }
    }

    /// The span of a side below one that reaches so far down.
    pub(crate) fn below(self, half: u32) -> Span
        requires { self.axis + (SPLIT + half) < 2 ^ 32 }
        ensures { result ≡ shapes.lower half self }
    {
        Span {
            axis: self.axis + (SPLIT + half),
            ..self
        }
    }

    /// The span of what a frame holds that is so wide.
    pub(crate) fn in_frame(self, width: u32) -> Span
        requires { shapes.start self + width < 2 ^ 32 }
        ensures { result ≡ shapes.in_frame width self }
    {
        let left = self.left + self.lead;
        Span {
            lead: FRAME,
            left,
            right: left + width,
            ..self
        }
    }
}
