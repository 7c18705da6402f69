//! The title of a chart.

ghost use Rattle.std.specs.Prelude.{◌≡◌, ◌++◌, OnOk};
ghost use Rattle.flow_chart.specs.Title.{front_text, front_of, title_before, cluster_text, cluster_of, title_behind, chart_head, title_foot};

use crate::words::head_words;
use flow_draw::{Format, Piece, push_pieces, push_quoted};
use std::alloc::AllocError;

/// What stands before a title in front of a flowchart.
pub(crate) const FRONT: &[u8] = b"---\ntitle: \"";

/// What stands behind it.
pub(crate) const FRONT_END: &[u8] = b"\"\n---\n";

/// Adds how a chart begins.
pub(crate) fn push_head(text: &mut Vec<u8>, format: Format, title: &[u8]) -> Result<(), AllocError>
    ensures { OnOk result (text.new.items ≡ text.old.items ++ chart_head format title.now) }
{
    push_before(text, format, title)?;
    text.extend_from_slice(head_words(format))?;
    push_behind(text, format, title)
}

fn push_before(text: &mut Vec<u8>, format: Format, title: &[u8]) -> Result<(), AllocError>
    ensures { OnOk result (text.new.items ≡ text.old.items ++ title_before format title.now) }
{
    match format {
        Format::Mermaid => push_front(text, title),
        _ => Ok(()),
    }
}

/// Adds a title in front of a flowchart, where there is one.
fn push_front(text: &mut Vec<u8>, title: &[u8]) -> Result<(), AllocError>
    ensures { OnOk result (text.new.items ≡ text.old.items ++ front_of title.now) }
{
    if title.is_empty() {
        return Ok(());
    }
    push_front_text(text, title)
}

#[tactic(auto, unfolding(crate::specs::Title::front_text))]
fn push_front_text(text: &mut Vec<u8>, title: &[u8]) -> Result<(), AllocError>
    ensures { OnOk result (text.new.items ≡ text.old.items ++ front_text title.now) }
{
    text.extend_from_slice(FRONT)?;
    push_quoted(text, title)?;
    text.extend_from_slice(FRONT_END)
}

fn push_behind(text: &mut Vec<u8>, format: Format, title: &[u8]) -> Result<(), AllocError>
    ensures { OnOk result (text.new.items ≡ text.old.items ++ title_behind format title.now) }
{
    match format {
        Format::Mermaid => Ok(()),
        _ => push_cluster(text, title),
    }
}

/// Adds the head of a cluster that has the title, where there is one.
fn push_cluster(text: &mut Vec<u8>, title: &[u8]) -> Result<(), AllocError>
    ensures { OnOk result (text.new.items ≡ text.old.items ++ cluster_of title.now) }
{
    if title.is_empty() {
        return Ok(());
    }
    push_cluster_text(text, title)
}

#[tactic(auto, unfolding(crate::specs::Title::cluster_text))]
fn push_cluster_text(text: &mut Vec<u8>, title: &[u8]) -> Result<(), AllocError>
    ensures { OnOk result (text.new.items ≡ text.old.items ++ cluster_text title.now) }
{
    push_pieces(
        text,
        &[
            Piece::Words(b"subgraph cluster_title {\nlabelloc=t;\ncolor=transparent;\nlabel=\""),
            Piece::Escaped(Format::Dot, title),
            Piece::Words(b"\";\n"),
        ],
    )
}

/// What stands behind all parts of a chart.
pub(crate) fn title_foot(format: Format, title: &[u8]) -> &'static [u8]
    ensures { result.now ≡ title_foot format title.now }
{
    if title.is_empty() {
        return b"";
    }
    match format {
        Format::Mermaid => b"",
        _ => b"}\n",
    }
}
