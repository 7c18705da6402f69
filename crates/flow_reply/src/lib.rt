//! What is written of a run: answers, looks, reports and summaries, and whole sessions of commands.
#![tactic(auto)]

mod answer;
mod conclusion;
mod ending;
mod facts;
mod look;
mod replies;
mod report;
mod session;
mod single;
mod summary;
mod verdict;
mod words;

pub use answer::{answer_line, print_answer};
pub use conclusion::{Conclusion, conclusion_of};
pub use ending::{status_of, verdict_of};
pub use flow_record::Command;
pub use look::{look_line, print_look};
pub use replies::{reply_to, reply_to_all};
pub use report::{Report, print_report, report_of};
pub use session::{conclude, drive};
pub use single::law_replies_are_single;
pub use summary::{Summary, print_summary};
pub use verdict::Verdict;
