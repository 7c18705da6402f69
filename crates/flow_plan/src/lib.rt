//! Plans: goals whose choices all stay, some leaves of which stand in order, and what may come next in them.
#![tactic(auto)]

mod claims;
mod compiled;
mod counts;
mod course;
mod cut_sides;
mod fold_row;
mod follow;
mod knot_free;
mod known;
mod outline;
mod part_row;
mod parts;
mod passed;
mod places;
mod plan;
mod rows;
mod sets;
mod sides;
mod span;
mod steps;
mod sweep;
mod table;
mod token;
mod words;

pub use claims::distinct;
pub use compiled::Compiled;
pub use counts::Counts;
pub use course::Course;
pub use fold_row::FoldRow;
pub use knot_free::KnotFree;
pub use plan::Plan;
pub use sides::{Sides, closed_off};
pub use table::{MIDDLE_WORDS, NARROW_WORDS};
pub use token::OrderToken;
pub use words::Words;
