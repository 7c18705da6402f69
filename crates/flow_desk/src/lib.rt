//! Where a run stands at each leaf of its workflow, and the picture that shows it.
#![tactic(auto)]

mod depict;
mod desk;
mod front;
mod limits;
mod marks;
mod noted;
mod place;
mod replay;
mod report;
mod run_file;
mod source;
mod stop;
mod told;

pub use desk::drawn;
pub use flow_draw::{Format, Sheet};
pub use flow_model::GREATEST_INPUT;
pub use front::read_front;
pub use limits::law_limits_of_pictures;
pub use noted::count_notes;
pub use place::{Position, position_of};
pub use run_file::GREATEST_RUN;
pub use stop::{DeskStop, Telling};
