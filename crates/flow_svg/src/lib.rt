//! A picture of a workflow as SVG, for browsers.
#![tactic(auto)]

mod apart;
mod courses;
mod cuts;
mod element;
mod lines;
mod notes;
mod orders;
mod page;
mod rows;
mod shapes;
mod style;
mod svg;

pub use apart::law_arrows_stay_apart;
pub use svg::print_svg;
