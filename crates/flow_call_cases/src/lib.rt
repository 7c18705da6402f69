//! The calls of `flowdesk` on cases: folders that are driven by names.
#![tactic(auto)]

mod asked;
mod drawn;
mod faults;
mod made;
mod paged;
mod spoken;
mod whole;
mod words;

pub use asked::{AskerWords, FileCase, ask_case, asker_in, opened, say_begin, wait_in};
pub use drawn::{case_report, draw_case};
pub use faults::{say_folder, say_policy, say_stop};
pub use made::{make, without_divider};
pub use paged::{page_command, write_page};
pub use spoken::dialogue;
pub use whole::verify;
pub use words::{is_case_command, with_cases};
