//! Workflow texts and queries, read and printed.
#![tactic(auto)]

mod known;
mod laws;
mod lexed_text;
mod name_refusal;
mod named;
mod names;
mod parser;
mod print_goals;
mod print_rules;
mod print_scripts;

pub use flow_form::{
    Const, Decl, Fact, Form, Name, Note, Query, RuleForm, Script, TextRefusal, Wanted,
};
pub use flow_lex::{Token, TokenKind, lex};
pub use laws::{
    law_printed_scripts_are_read_back, law_prints_are_lexed, law_texts_have_one_answer,
    law_texts_say_one_thing, law_what_is_said_can_be_printed,
};
pub use parser::{parse, parse_query};
pub use print_scripts::print;
