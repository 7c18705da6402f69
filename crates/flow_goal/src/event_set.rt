ghost use Rattle.std.specs.Prelude.{◌≡◌, ◌==◌, ◌||◌, ℕ, false, OnErr, OnOk};
ghost use Rattle.flow_goal.specs.EventSet.{has_event};

use std::alloc::{AllocError, Global};

/// A set of events, as a table by their numbers.
#[derive(Drop)]
pub struct EventSet {
    table: Vec<bool>,
}

impl EventSet {
    /// No event is in it.
    pub fn new(alloc: Global) -> EventSet
        ensures { (other : ℕ) → has_event result other ≡ false }
    {
        EventSet {
            table: Vec::new(alloc),
        }
    }

    /// Whether the event is in it.
    pub fn has(&self, event: u32) -> bool
        ensures { result ≡ has_event self.now event }
    {
        match self.table.get(event as usize) {
            Some(there) => *there,
            None => false,
        }
    }

    /// Puts the event in. It takes memory in the measure of the greatest event.
    pub fn add(&mut self, event: u32) -> Result<(), AllocError>
        ensures added { OnOk result ((other : ℕ) → has_event self.new other ≡ (event == other || has_event self.old other)) }
        ensures unchanged { OnErr result ((other : ℕ) → has_event self.new other ≡ has_event self.old other) }
    {
        let place = event as usize;
        if self.table.len() <= place {
            self.table.resize(place + 1, false)?;
        }
        self.table[place] = true;
        Ok(())
    }
}
