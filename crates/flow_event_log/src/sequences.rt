ghost use Rattle.std.specs.Prelude.{◌≡◌, ◌<◌, ◌≤◌, ◌+◌, ◌-◌, ◌∷◌, ◌++◌, [], ℕ, List, Some, length, reverse, slice_get, IfOk, OnOk, OnErr, IfSome, IsTrue};
ghost use Rattle.flow_event_log.specs.Reached.{AreOlder, IsReached, IsStepAt};

use crate::names_key::NamesKey;
use std::alloc::{AllocError, Global};
use std::collections::HashMap;

/// An event that comes behind a sequence, which stands by its number.
#[derive(Clone, Copy, PartialEq, Eq, Hash)]
pub(crate) struct Step {
    before: u32,
    event: u32,
}

/// Sequences of events, each one event longer than another. Number 0 is the empty one.
#[derive(Drop)]
pub(crate) struct Sequences {
    /// Of each sequence but the empty one its last event, and the sequence without it.
    steps: Vec<Step>,
    /// Where a step is looked for. What is found here is looked at again.
    numbers: HashMap<Step, u32, NamesKey>,
    /// Of each slot the sequence in it that was asked for last; 0 where there is none. It is looked at again too.
    recent: Vec<u32>,
    ghost older: { AreOlder steps.items },
}

/// How many slots there are for sequences that were asked for of late.
const SLOTS: usize = 262_144;

/// The slot of a sequence with one event more.
fn slot(before: u32, event: u32) -> usize {
    let mixed = (u64::from(before) << 32 | u64::from(event)).wrapping_mul(0x9E37_79B9_7F4A_7C15);
    (mixed >> 46) as usize
}

impl Sequences {
    /// The empty sequence alone.
    pub(crate) fn new(alloc: Global, key: NamesKey) -> Result<Sequences, AllocError>
        ensures { IfOk result (λ tree. tree.steps.items ≡ []) }
    {
        Ok(Sequences {
            steps: Vec::new(alloc),
            numbers: HashMap::with_hasher(alloc, key),
            recent: Vec::from_elem(alloc, 0, SLOTS)?,
        })
    }

    /// How many there are, with the empty one.
    pub(crate) fn count(&self) -> usize
        ensures { result ≡ length self.now.steps.items + 1 }
    {
        self.steps.len() + 1
    }

    /// The number of a sequence with one event more.
    pub(crate) fn longer(&mut self, before: u32, event: u32) -> Result<u32, AllocError>
        requires { before ≤ length self.old.steps.items }
        ensures reached { IfOk result (λ number. (events : List ℕ) → IsReached self.old.steps.items before events → IsReached self.new.steps.items number (event ∷ events)) }
        ensures kept { (number : ℕ) (events : List ℕ) → IsReached self.old.steps.items number events → IsReached self.new.steps.items number events }
        ensures bound { IfOk result (λ number. number ≤ length self.new.steps.items) }
        ensures more { length self.old.steps.items ≤ length self.new.steps.items }
    {
        if let Some(number) = self.recall(before, event) {
            return Ok(number);
        }
        let number = self.find_or_add(before, event)?;
        self.keep(before, event, number);
        Ok(number)
    }

    /// The number of a sequence with one event more, which is added now if it is not there.
    fn find_or_add(&mut self, before: u32, event: u32) -> Result<u32, AllocError>
        requires { before ≤ length self.old.steps.items }
        ensures reached { IfOk result (λ number. (events : List ℕ) → IsReached self.old.steps.items before events → IsReached self.new.steps.items number (event ∷ events)) }
        ensures kept { (number : ℕ) (events : List ℕ) → IsReached self.old.steps.items number events → IsReached self.new.steps.items number events }
        ensures bound { IfOk result (λ number. number ≤ length self.new.steps.items) }
        ensures more { length self.old.steps.items ≤ length self.new.steps.items }
    {
        if let Some(number) = self.find(before, event) {
            return Ok(number);
        }
        let number = self.add(before, event)?;
        Ok(number)
    }

    /// The number, if it is that of a sequence with one event more.
    fn checked(&self, number: u32, before: u32, event: u32) -> Option<u32>
        ensures { IfSome result (λ number. IsStepAt self.now.steps.items number before event) }
    {
        if number == 0 {
            return None;
        }
        match self.steps.get((number - 1) as usize) {
            Some(step) if step.before == before && step.event == event => Some(number),
            _ => None,
        }
    }

    /// The number of a sequence with one event more, if it is the one of its slot that was asked for last.
    fn recall(&self, before: u32, event: u32) -> Option<u32>
        ensures { IfSome result (λ number. IsStepAt self.now.steps.items number before event) }
    {
        let number = match self.recent.get(slot(before, event)) {
            Some(number) => *number,
            None => return None,
        };
        self.checked(number, before, event)
    }

    /// Keeps the number of a sequence that was asked for.
    fn keep(&mut self, before: u32, event: u32, number: u32)
        ensures { self.new.steps.items ≡ self.old.steps.items }
    {
        if let Some(recent) = self.recent.get_mut(slot(before, event)) {
            *recent = number;
        }
    }

    /// The number of a sequence with one event more, if there is one.
    fn find(&self, before: u32, event: u32) -> Option<u32>
        ensures { IfSome result (λ number. IsStepAt self.now.steps.items number before event) }
    {
        let number = match self.numbers.get(&Step { before, event }) {
            Some(number) => *number,
            None => return None,
        };
        self.checked(number, before, event)
    }

    /// Adds a sequence with one event more.
    fn add(&mut self, before: u32, event: u32) -> Result<u32, AllocError>
        requires { before ≤ length self.old.steps.items }
        ensures steps { OnOk result (self.new.steps.items ≡ self.old.steps.items ++ (record { before = before; event = event }) ∷ []) }
        ensures number { IfOk result (λ number. number ≡ length self.old.steps.items + 1) }
        ensures err { OnErr result (self.new.steps.items ≡ self.old.steps.items) }
    {
        let Ok(places) = u32::try_from(self.steps.len()) else {
            return Err(AllocError);
        };
        let Some(number) = places.checked_add(1) else {
            return Err(AllocError);
        };
        let step = Step { before, event };
        self.numbers.insert(step, number)?;
        self.steps.push(step)?;
        Ok(number)
    }

    /// The events of a sequence.
    pub(crate) fn events(&self, alloc: Global, number: u32) -> Result<Vec<u32>, AllocError>
        requires { number ≤ length self.now.steps.items }
        ensures { IfOk result (λ events. (latest_first : List ℕ) → IsReached self.now.steps.items number latest_first → events.items ≡ reverse latest_first) }
    {
        let mut events = Vec::new(alloc);
        let mut at = number;
        while at != 0 {
            let step = self.steps[(at - 1) as usize];
            events.push(step.event)?;
            at = step.before.min(at - 1);
        }
        events.reverse();
        Ok(events)
    }
}
