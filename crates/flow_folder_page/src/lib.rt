//! The page of a folder of cases: how they stand, what waits for whom, what is out, what is stuck, and all of them, as data of a page.
#![tactic(auto)]

mod all;
mod cells;
mod data;
mod free;
mod held;
mod lines;
mod shown;
mod stand;
mod stuck;
mod waits;

pub use data::{DamagedCase, FolderCase, OpenTask, TaskHeld};
pub use lines::folder_case;
pub use shown::{Folder, folder_page};
