ghost use Rattle.std.specs.Prelude.{◌≡◌, ◌+◌, ℕ, List, ◌∷◌, [], ◌++◌, map, IfOk, OnOk, MatchOption, slice_get, option_copied};
ghost use Rattle.std.specs.List.{flat_map};
ghost use Rattle.flow_model.specs.Lists.{◌∈◌};
ghost use Rattle.flow_form.specs.Script.{declared};
ghost use Rattle.flow_form.specs.Names.{event_name};
ghost use Rattle.flow_workflow.specs.Numbers.{event_number};
ghost use Rattle.flow_policy.specs.Numbering.{IsEventTable};

use flow_facts::Name;
use flow_form::{Decl, names_key};
use flow_workflow::Numbered;
use std::alloc::{AllocError, Global};

/// The events that a script declares. One that is declared again has the number of its first declaration.
#[derive(Drop)]
pub(crate) struct EventTable {
    /// Each event once.
    names: Numbered<Name>,
    /// Its number, by its place among them.
    places: Vec<u32>,
    /// How many declarations of events there are.
    count: u32,
}

fn no_events(alloc: Global, decls: &[Decl]) -> EventTable
    ensures { IsEventTable [] result }
{
    EventTable {
        names: Numbered::new(alloc, names_key(decls)),
        places: Vec::new(alloc),
        count: 0,
    }
}

/// There are no more declarations than numbers, or want of memory is told.
fn one_more(count: u32) -> Result<u32, AllocError>
    ensures { IfOk result (λ more. more ≡ count + 1) }
{
    match count.checked_add(1) {
        Some(more) => Ok(more),
        None => Err(AllocError),
    }
}

impl EventTable {
    fn add(&mut self, alloc: Global, name: &Name) -> Result<(), AllocError>
        ensures { (events : List (List ℕ)) → IsEventTable events self.old → OnOk result (IsEventTable (events ++ name.now ∷ []) self.new) }
    {
        let number = self.names.add(alloc, name)?;
        if number as usize == self.places.len() {
            self.places.push(self.count)?;
        }
        self.count = one_more(self.count)?;
        Ok(())
    }

    pub(crate) fn of(alloc: Global, decls: &[Decl]) -> Result<EventTable, AllocError>
        ensures { IfOk result (λ table. IsEventTable (flat_map event_name (map declared decls.now)) table) }
    {
        let mut table = no_events(alloc, decls);
        for decl in decls {
            if let Decl::Event(name, _) = decl {
                table.add(alloc, name)?;
            }
        }
        Ok(table)
    }

    /// The number of the event of that name.
    pub(crate) fn number_of(&self, name: &Name) -> Option<u32>
        ensures { (events : List (List ℕ)) → IsEventTable events self.now →
            MatchOption result (¬ (name.now ∈ events)) (λ number. (name.now ∈ events) × (number ≡ event_number events name.now)) }
    {
        let place = self.names.number_of(name)?;
        self.at(place).copied()
    }

    fn at(&self, place: u32) -> Option<&u32>
        ensures { option_copied result ≡ slice_get self.now.places.items place }
    {
        self.places.get(place as usize)
    }
}
