//! Goals with labelled leaves.
#![tactic(auto)]

mod batches;
mod choiceless;
mod choices;
mod draft;
mod event_set;
mod events;
mod flags;
mod fold;
mod folds;
mod goal;
mod goal_stack;
mod keeping;
mod measure;
mod node;
mod occurrence;
mod pattern;
mod repeats;
mod simple;
mod text;
mod times;
mod tree;
mod walk;

pub use choiceless::Choiceless;
pub use choices::{Choices, Held, resolutions, resolve};
pub use event_set::EventSet;
pub use events::{twice, twice_by_table};
pub use flow_model::{Label, Note};
pub use fold::Fold;
pub use folds::Folds;
pub use goal::{Goal, together};
pub use measure::Measure;
pub use node::Node;
pub use repeats::Twice;
pub use simple::simplify;
pub use tree::{Tree, TreeRefusal};
