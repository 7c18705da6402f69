//! What is handed over to whoever calls: into the room that he gives, if it is large enough.
ghost use Rattle.std.specs.Prelude.{◌≡◌};
ghost use Rattle.flow_c.specs.Handed.{IsHandedOver};

/// The room is too small.
const NO_ROOM: u32 = 9;

/// Writes the output into the room, where it has room for all of it, and tells how long it is.
pub(crate) fn hand_over(output: &[u8], status: u32, room: &mut [u8], length: &mut usize) -> u32
    ensures { IsHandedOver output.now status room.old room.new length.new result }
{
    let count = output.len();
    *length = count;
    if room.len() < count {
        return NO_ROOM;
    }
    room[..count].copy_from_slice(output);
    status
}

/// Tells that there is no output.
pub(crate) fn hand_nothing(status: u32, length: &mut usize) -> u32
    ensures length { length.new ≡ 0 }
    ensures status { result ≡ status }
{
    *length = 0;
    status
}
