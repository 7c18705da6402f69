ghost use Rattle.std.specs.Prelude.{◌≡◌, ◌≤◌, ℕ, get_or, length, OnOk};
ghost use Rattle.flow_rules.specs.Room.{HasRoom};

use flow_goal::Tree;
use std::alloc::AllocError;

/// How many places a table by events needs for the events of the leaves.
pub(crate) fn room_for(tree: &Tree, leaves: &[u32]) -> usize
    ensures { HasRoom tree.now.labels leaves.now result }
{
    let mut room = 0;
    for leaf in leaves {
        if let Some(event) = tree.event(*leaf) {
            room = room.max(event as usize + 1);
        }
    }
    room
}

/// Makes a table of so many places at least, where those that are added are blank.
pub(crate) fn make_room<T: Copy>(
    table: &mut Vec<T>,
    room: usize,
    blank: T,
) -> Result<(), AllocError>
    ensures room { OnOk result (room ≤ length table.new.items) }
    ensures same { (q : ℕ) → get_or table.new.items q blank ≡ get_or table.old.items q blank }
{
    if table.len() < room {
        table.resize(room, blank)?;
    }
    Ok(())
}
