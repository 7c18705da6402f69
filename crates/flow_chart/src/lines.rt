ghost use Rattle.std.specs.Prelude.{◌≡◌, ◌++◌, OnOk};
ghost use Rattle.flow_chart.specs.Lines.{node_words, node_number, edge_text, leaf_text, point_text, bars_text, frame_head, mermaid_order, dot_order, order_text, order_lines};

use crate::words::{
    bar_words, break_words, close_words, edge_words, end_words, frame_close, frame_label,
    frame_open, mark_words, open_words, point_words,
};
use flow_draw::{Format, Piece, below, mark_word, push_pieces};
use flow_view::{Arrow, Mark, Sides};
use std::alloc::AllocError;

/// A node of a chart.
#[derive(Clone, Copy)]
pub(crate) enum Node {
    /// That of a leaf, by its number.
    Leaf(u32),
    /// A point or a bar, by its number in the order of the walk.
    Part(u64),
}

fn node_words(node: Node) -> &'static [u8]
    ensures { result.now ≡ node_words node }
{
    match node {
        Node::Leaf(_) => b"leaf",
        Node::Part(_) => b"part",
    }
}

fn node_number(node: Node) -> u64
    ensures { result ≡ node_number node }
{
    match node {
        Node::Leaf(leaf) => leaf as u64,
        Node::Part(number) => number,
    }
}

/// Adds an edge.
#[tactic(auto, unfolding(crate::specs::Lines::edge_text))]
pub(crate) fn push_edge(
    text: &mut Vec<u8>,
    format: Format,
    from: Node,
    to: Node,
) -> Result<(), AllocError>
    ensures { OnOk result (text.new.items ≡ text.old.items ++ edge_text format from to) }
{
    push_pieces(
        text,
        &[
            Piece::Words(node_words(from)),
            Piece::Number(node_number(from)),
            Piece::Words(edge_words(format)),
            Piece::Words(node_words(to)),
            Piece::Number(node_number(to)),
            Piece::Words(end_words(format)),
        ],
    )
}

/// Adds the box of a leaf. Where a run stands at it is its class or colour, and a word in the box.
#[tactic(auto, unfolding(crate::specs::Lines::leaf_text))]
pub(crate) fn push_leaf(
    text: &mut Vec<u8>,
    format: Format,
    leaf: u32,
    label: &[u8],
    mark: Mark,
) -> Result<(), AllocError>
    ensures { OnOk result (text.new.items ≡ text.old.items ++ leaf_text format leaf label.now mark) }
{
    push_pieces(
        text,
        &[
            Piece::Words(b"leaf"),
            Piece::Number(leaf as u64),
            Piece::Words(open_words(format)),
            Piece::Escaped(format, label),
            Piece::Words(break_words(format, mark)),
            Piece::Words(mark_word(mark)),
            Piece::Words(close_words(format)),
            Piece::Words(mark_words(format, mark)),
            Piece::Words(end_words(format)),
        ],
    )
}

/// Adds a point.
#[tactic(auto, unfolding(crate::specs::Lines::point_text))]
pub(crate) fn push_point(text: &mut Vec<u8>, format: Format, number: u64) -> Result<(), AllocError>
    ensures { OnOk result (text.new.items ≡ text.old.items ++ point_text format number) }
{
    push_pieces(
        text,
        &[
            Piece::Words(b"part"),
            Piece::Number(number),
            Piece::Words(point_words(format)),
        ],
    )
}

/// Adds the two bars at which sides part and meet.
#[tactic(auto, unfolding(crate::specs::Lines::bars_text))]
pub(crate) fn push_bars(
    text: &mut Vec<u8>,
    format: Format,
    sides: Sides,
    number: u64,
) -> Result<(), AllocError>
    ensures { OnOk result (text.new.items ≡ text.old.items ++ bars_text format sides number) }
{
    let next = below(number, 1)?;
    push_pieces(
        text,
        &[
            Piece::Words(b"part"),
            Piece::Number(number),
            Piece::Words(bar_words(format, sides)),
            Piece::Words(b"part"),
            Piece::Number(next),
            Piece::Words(bar_words(format, sides)),
        ],
    )
}

/// Adds the head of a frame.
#[tactic(auto, unfolding(crate::specs::Lines::frame_head))]
pub(crate) fn push_frame_head(
    text: &mut Vec<u8>,
    format: Format,
    number: u64,
    caption: &[u8],
) -> Result<(), AllocError>
    ensures { OnOk result (text.new.items ≡ text.old.items ++ frame_head format number caption.now) }
{
    push_pieces(
        text,
        &[
            Piece::Words(frame_open(format)),
            Piece::Number(number),
            Piece::Words(frame_label(format)),
            Piece::Escaped(format, caption),
            Piece::Words(frame_close(format)),
        ],
    )
}

/// Adds the arrows of constraints, each with the number of its constraint.
pub(crate) fn push_orders(
    text: &mut Vec<u8>,
    format: Format,
    arrows: &[Arrow],
) -> Result<(), AllocError>
    ensures { OnOk result (text.new.items ≡ text.old.items ++ order_lines format arrows.now) }
{
    for arrow in arrows {
        push_order(text, format, arrow)?;
    }
    Ok(())
}

fn push_order(text: &mut Vec<u8>, format: Format, arrow: &Arrow) -> Result<(), AllocError>
    ensures { OnOk result (text.new.items ≡ text.old.items ++ order_text format arrow.now) }
{
    match format {
        Format::Mermaid => push_mermaid_order(text, arrow),
        _ => push_dot_order(text, arrow),
    }
}

#[tactic(auto, unfolding(crate::specs::Lines::mermaid_order))]
fn push_mermaid_order(text: &mut Vec<u8>, arrow: &Arrow) -> Result<(), AllocError>
    ensures { OnOk result (text.new.items ≡ text.old.items ++ mermaid_order arrow.now) }
{
    push_pieces(
        text,
        &[
            Piece::Words(b"leaf"),
            Piece::Number(arrow.from as u64),
            Piece::Words(b" -.->|"),
            Piece::Number(arrow.rule as u64),
            Piece::Words(b"| leaf"),
            Piece::Number(arrow.to as u64),
            Piece::Words(b"\n"),
        ],
    )
}

#[tactic(auto, unfolding(crate::specs::Lines::dot_order))]
fn push_dot_order(text: &mut Vec<u8>, arrow: &Arrow) -> Result<(), AllocError>
    ensures { OnOk result (text.new.items ≡ text.old.items ++ dot_order arrow.now) }
{
    push_pieces(
        text,
        &[
            Piece::Words(b"leaf"),
            Piece::Number(arrow.from as u64),
            Piece::Words(b" -> leaf"),
            Piece::Number(arrow.to as u64),
            Piece::Words(
                b" [style=dashed, color=\"#8250df\", fontcolor=\"#8250df\", constraint=false, label=\"",
            ),
            Piece::Number(arrow.rule as u64),
            Piece::Words(b"\"];\n"),
        ],
    )
}
