//! Names, facts and sets of facts, and which facts hold as labels are performed.
#![tactic(auto)]

mod constant;
mod database;
mod fact;
mod journals;
mod letters;
mod name;
mod text;
mod text_key;
mod update;
mod world;

pub use constant::Const;
pub use database::Database;
pub use fact::Fact;
pub use journals::law_replaying_is_performing;
pub use name::Name;
pub use text::push_fact;
pub use text_key::TextKey;
pub use world::World;
