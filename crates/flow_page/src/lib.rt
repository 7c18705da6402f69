//! A page of HTML from data: a title, and sections of paragraphs, pictures and tables.
#![tactic(auto)]

mod data;
mod inside;
mod made;
mod page;
mod sections;
mod style;
mod tables;

pub use data::{Page, Part, Row, Section, Table};
pub use inside::law_texts_stay_inside;
pub use made::{paragraph, row, tabled, told};
pub use page::print_page;
