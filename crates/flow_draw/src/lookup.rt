ghost use Rattle.std.specs.Prelude.{◌≡◌};
ghost use Rattle.flow_draw.specs.Lookup.{text_at, frame_caption, mark_at, mark_word};

use flow_facts::Name;
use flow_view::{Frame, Labels, Mark};

/// The text of that number. It is empty where there is none.
pub fn text_at(texts: &[Name], number: usize) -> &[u8]
    ensures { result.now ≡ text_at texts.now number }
{
    match texts.get(number) {
        Some(text) => text.bytes(),
        None => &[],
    }
}

/// What is written at the head of a frame.
pub fn frame_caption(labels: &Labels, frame: Frame) -> &[u8]
    ensures { result.now ≡ frame_caption labels.now frame }
{
    match frame {
        Frame::Iso => b"iso",
        Frame::Called(flow, _) => text_at(&labels.captions, flow),
    }
}

/// The mark of a leaf. A leaf that has none is plain.
pub fn mark_at(marks: &[Mark], leaf: u32) -> Mark
    ensures { result ≡ mark_at marks.now leaf }
{
    match marks.get(leaf as usize) {
        Some(mark) => *mark,
        None => Mark::Plain,
    }
}

/// The word of a mark. It is empty for a plain leaf.
pub fn mark_word(mark: Mark) -> &'static [u8]
    ensures { result.now ≡ mark_word mark }
{
    match mark {
        Mark::Plain => b"",
        Mark::Done => b"done",
        Mark::Next => b"next",
        Mark::Claimed => b"claimed",
        Mark::Failed => b"failed",
        Mark::Banned => b"banned",
    }
}
