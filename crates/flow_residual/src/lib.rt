//! What is still possible in a run: the options, how far each of them follows the journal, and the bans; and the claims
//! that it has given, with those that a new epoch spares.
#![tactic(auto)]

mod all_taken;
mod answers;
mod claims;
mod fronts;
mod given;
mod next_rows;
mod plan_rows;
mod question;
mod residual;
mod sets;
mod spared;

pub use claims::Claims;
pub use given::Given;
pub use residual::Residual;
