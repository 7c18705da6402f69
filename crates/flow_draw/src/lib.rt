//! What every text of a picture is made of: its forms and their escapes, pieces, what is shown at leaves and frames, constraints as text.
#![tactic(auto)]

mod escape;
mod format;
mod inside;
mod lookup;
mod notes;
mod pieces;
mod sheet;

pub use escape::{push_escaped, push_quoted};
pub use format::Format;
pub use inside::law_labels_stay_inside;
pub use lookup::{frame_caption, mark_at, mark_word, text_at};
pub use notes::notes_of;
pub use pieces::{Piece, below, push_pieces};
pub use sheet::Sheet;
