ghost use Rattle.std.specs.Prelude.{◌≡◌, IfOk, map};
ghost use Rattle.flow_model.specs.Lists.{AreDistinct};
ghost use Rattle.flow_form.specs.Script.{declared};
ghost use Rattle.flow_form.specs.Names.{event_names};
ghost use Rattle.flow_expand.specs.Numbers.{notes_of};

use flow_facts::Name;
use flow_form::{Decl, names_key};
use flow_model::Note;
use flow_workflow::Numbered;
use std::alloc::{AllocError, Global};

/// The events that are declared, by their numbers.
#[derive(Drop)]
pub(crate) struct Events {
    pub(crate) names: Numbered<Name>,
    pub(crate) notes: Vec<Note>,
}

impl Events {
    pub(crate) fn new(alloc: Global, decls: &[Decl]) -> Result<Events, AllocError>
        requires { AreDistinct (event_names (map declared decls.now)) }
        ensures names { IfOk result (λ events. events.names ≡ event_names (map declared decls.now)) }
        ensures notes { IfOk result (λ events. events.notes.items ≡ notes_of (map declared decls.now)) }
    {
        let mut names = Numbered::new(alloc, names_key(decls));
        let mut notes = Vec::new(alloc);
        for decl in decls {
            if let Decl::Event(name, note) = decl {
                names.add(alloc, name)?;
                notes.push(*note)?;
            }
        }
        Ok(Events { names, notes })
    }
}
