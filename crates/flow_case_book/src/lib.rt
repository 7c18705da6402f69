//! A case that is kept: its texts, its run, and who made each entry.
#![tactic(auto)]

mod book;
mod dues;
mod names;
mod opened;

pub use book::CaseBook;
pub use flow_case_begin::{CaseStop, CaseTexts, check_texts};
pub use flow_case_cli::Asker;
pub use flow_trail::VerifyRefusal;
pub use opened::{KeptTexts, open_case};
