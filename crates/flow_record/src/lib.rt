//! Histories, journals and sessions as text, and where a source is cut before them.
#![tactic(auto)]

mod command;
mod divider;
mod history;
mod journal;
mod line;
mod lines;
mod number;
mod pieces;
mod refusal;
mod session;
mod words;

pub use command::Command;
pub use divider::cut;
pub use history::{print_history, read_history};
pub use journal::{print_journal, print_label, push_leaf_line, read_journal};
pub use line::{Line, Sentence};
pub use number::push_numbers;
pub use pieces::print_pieces;
pub use refusal::RecordRefusal;
pub use session::{read_lines, read_session};
pub use words::split_word;
