//! The tokens of workflow texts and queries.
#![tactic(auto)]

mod bytes;
mod digits;
mod lexing;
mod piece;
mod token;
mod writing;

pub use digits::number;
pub use lexing::lex;
pub use token::{Token, TokenKind};
pub use writing::law_what_is_written_is_read;
