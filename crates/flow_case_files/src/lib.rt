//! The folder of a case: made whole or not at all, read, and opened by one writer at a time.
#![tactic(auto)]

mod folder;
mod locked;
mod made;
mod moved;

pub use folder::{CaseTexts, ENTRIES, FolderFault, GREATEST_TEXT, TRAIL, bytes_behind, read_case};
pub use locked::{CaseDisks, open_disks};
pub use made::make_case;
pub use moved::{
    MOST_MOVES, finish_move, is_cut_off, make_moving, moving_folder, put_in_place, take_away,
};
