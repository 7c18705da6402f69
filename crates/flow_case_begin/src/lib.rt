//! A case as it begins: its run, made of its texts.
#![tactic(auto)]

mod stop;
mod texts;

pub use stop::CaseStop;
pub use texts::{
    Begun, CaseTexts, MOST_STEPS, begin, case_begun, case_with, check_texts, prepared,
};
