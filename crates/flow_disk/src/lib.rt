//! A file as a durable history sees it: what a read gives, and what a crash may leave at each moment.
#![tactic(auto)]

mod calls;
mod change;
mod change_log;
mod disk;
mod file_disk;
mod mem_disk;
mod replay;

pub use disk::{Disk, DiskFailed};
pub use file_disk::FileDisk;
pub use mem_disk::MemDisk;
