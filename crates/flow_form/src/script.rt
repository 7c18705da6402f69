use crate::form::Form;
use crate::rule_form::RuleForm;
use flow_facts::{Fact, Name, TextKey};
use flow_model::Note;
use std::hash::{DefaultHasher, Hash};

/// One declaration.
#[derive(Drop)]
pub enum Decl {
    /// The fact holds at the start.
    Fact(Fact),
    Event(Name, Note),
    /// A sub-workflow.
    Flow(Name, Form),
}

/// The key of the tables of a text's names, made of the names that are declared.
pub fn names_key(decls: &[Decl]) -> TextKey {
    let mut read = DefaultHasher::new();
    for decl in decls {
        if let Decl::Event(name, _) | Decl::Flow(name, _) = decl {
            name.hash(&mut read);
        }
    }
    TextKey::of(&read)
}

/// The key of the table of a text's facts, made of the facts that are declared. Those that stand at leaves alone are not in it:
/// there are no more of them than leaves.
pub fn facts_key(decls: &[Decl]) -> TextKey {
    let mut read = DefaultHasher::new();
    for decl in decls {
        if let Decl::Fact(fact) = decl {
            fact.hash(&mut read);
        }
    }
    TextKey::of(&read)
}

/// A workflow as it is written.
#[derive(Drop)]
pub struct Script {
    pub decls: Vec<Decl>,
    pub goal: Form,
    pub rules: Vec<RuleForm>,
}
