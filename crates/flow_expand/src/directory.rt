ghost use Rattle.std.specs.Prelude.{◌≡◌, IfOk, map};
ghost use Rattle.flow_model.specs.Lists.{AreDistinct};
ghost use Rattle.flow_form.specs.Script.{declared};
ghost use Rattle.flow_form.specs.Names.{declared_names, event_names};
ghost use Rattle.flow_expand.specs.Steps.{AreDeclared};
ghost use Rattle.flow_expand.specs.Directory.{IsDirectory, found_in};

use flow_facts::Name;
use flow_form::{Decl, Form};
use flow_workflow::Numbered;
use std::alloc::{AllocError, Global};

/// The names of declarations. Events and sub-workflows are numbered apart, in order of declaration.
#[derive(Drop)]
pub(crate) struct Directory<'a> {
    pub(crate) decls: &'a [Decl],
    pub(crate) events: &'a Numbered<Name>,
    pub(crate) flows: Numbered<Name>,
    /// The goals of sub-workflows, by their numbers.
    pub(crate) goals: Vec<&'a Form>,
}

impl<'a> Directory<'a> {
    /// That of the declarations, of which these are the events.
    pub(crate) fn new(
        alloc: Global,
        decls: &'a [Decl],
        events: &'a Numbered<Name>,
    ) -> Result<Directory<'a>, AllocError>
        requires once { AreDistinct (declared_names (map declared decls.now)) }
        requires closed { AreDeclared (map declared decls.now) }
        requires events { events.now ≡ event_names (map declared decls.now) }
        ensures decls { IfOk result (λ d. d.decls.now ≡ decls.now) }
        ensures directory { IfOk result IsDirectory }
    {
        let mut flows = Numbered::new(alloc, events.text());
        let mut goals = Vec::new(alloc);
        for decl in decls {
            if let Decl::Flow(name, goal) = decl {
                flows.add(alloc, name)?;
                goals.push(goal)?;
            }
        }
        Ok(Directory {
            decls,
            events,
            flows,
            goals,
        })
    }

    /// The number of the sub-workflow of that name.
    pub(crate) fn flow(&self, name: &Name) -> Option<usize>
        ensures { result ≡ found_in self.now.flows name.now }
    {
        // It says that no name stands twice.
        let _names = self.flows.as_slice();
        match self.flows.number_of(name) {
            Some(number) => Some(number as usize),
            None => None,
        }
    }
}
