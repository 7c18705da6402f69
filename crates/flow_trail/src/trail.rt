ghost use Rattle.std.specs.Prelude.{◌≡◌, ◌+◌, ◌≤◌, ◌^◌, List, ℕ, false, map, length};
ghost use Rattle.flow_trail.specs.Lines.{said_of, trail_text, end_of, AreInOrder};
ghost use Rattle.flow_trail.specs.Kept.{HoldsLines};
ghost use Rattle.flow_trail.specs.Order.{order-prop};

use crate::line::{TrailEnd, TrailLine};
use flow_disk::Disk;

/// The most bytes that a trail has.
pub const MOST_BYTES: u64 = 1 << 40;

/// A trail that is kept in a file: each line is in the file before the call that tells it answers.
#[derive(Drop)]
pub struct Trail<D: Disk> {
    pub(crate) disk: D,
    pub(crate) start: TrailEnd,
    pub(crate) lines: Vec<TrailLine>,
    pub(crate) end: TrailEnd,
    /// How many bytes the lines take.
    pub(crate) place: u64,
    pub(crate) broken: bool,
    ghost in_order: { AreInOrder start (map said_of lines.items) } by { order-prop start (map said_of lines.items) },
    ghost ends: { end ≡ end_of start (map said_of lines.items) },
    ghost placed: { place ≡ length (trail_text start (map said_of lines.items)) },
    ghost room: { place ≤ 2 ^ 40 },
    ghost held: { D.tells → broken ≡ false → HoldsLines start (map said_of lines.items) place (D.seen disk) (D.image disk (D.moment disk)) },
}
