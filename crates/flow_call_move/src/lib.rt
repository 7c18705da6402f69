//! The call of `flowdesk` by which a case goes on under other texts.
#![tactic(auto)]

mod moved;
mod plan;
mod retold;
mod said;
mod texts;
mod words;

pub use moved::move_case;
pub use words::move_command;
